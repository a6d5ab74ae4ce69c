// The check of the chains of a store: of objects and of blocks, and what the check of the capabilities needs of chains.
// Each function decides a part of the link shape exactly, and marks the records that it visits.
#![tactic(auto)]

pub mod blocks;
pub mod chain;
pub mod marks;
pub mod objects;
