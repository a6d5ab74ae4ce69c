// "With a master the object ends too; its moneyword, cash and box sums go to the house." "A freed record or block is
// used again."
#![tactic(auto)]

mod blocks;
pub mod end;
mod forfeit;
mod free;
mod object;
