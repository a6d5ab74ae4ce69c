// Answers as lines: 01, "A script and its output".
#![tactic(auto)]

pub mod answer;
pub mod ends;
