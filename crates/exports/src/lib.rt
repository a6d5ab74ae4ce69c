// What is exported to C and Rust: each function hands on to the verified one, with its contract. A request and a reply
// cross as slices of 32-bit numbers.
#![tactic(auto)]

pub mod drive;
pub mod hooks;
pub mod question;
pub mod royalties;
pub mod store;
