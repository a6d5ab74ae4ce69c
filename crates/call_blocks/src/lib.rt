// Blocks: a chain of them followed; whether there are enough free ones for a new object, and that it takes them.
#![tactic(auto)]

pub mod chain;
pub mod clear;
pub mod take;
