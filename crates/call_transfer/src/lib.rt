// read and write, after the fee and with the capability found: bytes of an object, at most 256, across its blocks.
#![tactic(auto)]

pub mod from_blocks;
mod part;
pub mod to_blocks;
mod window;
