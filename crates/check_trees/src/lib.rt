// The check of the capability trees, and of the whole shape of the links.
#![tactic(auto)]

mod caps;
pub mod shape;
mod sound;
