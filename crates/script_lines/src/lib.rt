// A script's lines as requests: 01, "A script and its output".
#![tactic(auto)]

pub mod first;
pub mod fits;
pub mod request;
mod table;
pub mod text;
