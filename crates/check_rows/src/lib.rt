// What the checks of fields share: a hash table that tells slots apart; and laws of loops over slots, in specs/ and
// proofs/.
#![tactic(auto)]

pub mod table;
