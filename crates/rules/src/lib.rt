// The rules of 01 are definitions, in specs/; this crate has no code.
#![tactic(auto)]
