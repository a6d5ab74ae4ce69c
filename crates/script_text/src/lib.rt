// Numbers and lines of bytes: what stands in a line, and how a line is written. 01, "A script and its output".
#![tactic(auto)]

pub mod lines;
pub mod read;
pub mod write;
