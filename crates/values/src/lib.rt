// The kinds of value in a store's words, and what is asked of them: rights, cash and moneywords, passwords and lockwords,
// fees, windows, blocks; 01's limits and refusals, and numbers of calls, by name. Each function meets a definition of the rules for every input.
#![tactic(auto)]

pub mod blocks;
pub mod cash;
pub mod fees;
pub mod limit;
pub mod moneyword;
pub mod number;
pub mod password;
pub mod refusal;
pub mod rights;
pub mod window;
