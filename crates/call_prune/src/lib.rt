// Capabilities that end: a leaf, all below a capability, one that is no master with all its descendants; and the scratch.
#![tactic(auto)]

pub mod below;
pub mod delete;
pub mod free;
mod leaf;
pub mod scratch;
