// What comes before a call's own part: 01, "What each call refuses, in order", up to 6.
#![tactic(auto)]

pub mod entry;
