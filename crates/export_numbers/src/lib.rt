// Requests and replies as rows of 32-bit numbers, as they cross to C: each struct's fields in their order.
#![tactic(auto)]

pub mod call;
pub mod count;
pub mod drive;
pub mod lend;
pub mod numbers;
pub mod royalties;
pub mod window;
