// One line of a script on the store: 01, "A script and its output".
#![tactic(auto)]

pub mod line;
pub mod start;
pub mod workspace;
