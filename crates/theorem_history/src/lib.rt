// Demand 3 about stores, and that no process with mail waits: statements, in specs/, and their proofs; this crate has no code.
#![tactic(auto)]
