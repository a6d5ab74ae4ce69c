// What a script writes, whatever the turns, is a statement, in specs/, and its proof; this crate has no code.
#![tactic(auto)]
