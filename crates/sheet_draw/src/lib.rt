// What became of the capabilities, drawn as text for a person: what a line ended, and each object with its tree.
#![tactic(auto)]

pub mod draw;
pub mod ended;
mod rights;
pub mod store;
mod walk;
