// What all calls share: the request and the reply, and the steps from a request to the call's own part.
#![tactic(auto)]

pub mod copy;
mod groups;
pub mod numbers;
pub mod objects;
mod owned;
pub mod pay;
pub mod present;
pub mod ranges;
pub mod request;
pub mod taken;
pub mod target;
