// A capability record made: it is taken from the free list and written whole. make_obj and derive_cap link it where it
// belongs.
#![tactic(auto)]

pub mod cap;
