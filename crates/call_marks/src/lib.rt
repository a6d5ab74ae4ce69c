// Calls on one process or one capability, after the fee and with the capability found: suspend, resume and wait set a
// mark, apply_lock changes a lockword, revive pays a terminated process, cap_info tells of a capability.
#![tactic(auto)]

pub mod info;
pub mod lock;
pub mod mark;
mod process;
pub mod terminated;
