// 01, "A store is well formed when": the check of three slices of any length and content.
#![tactic(auto)]

ghost use Rattle.layout.specs.WellFormed.{WellFormed};
ghost use Rattle.layout.specs.Decides.{Decides};

use crate::fields::check_fields;
use check_trees::shape::check_shape;
use layout::{BYTES, LINKS, WORDS};

mod fields;

// True exactly when the store is well formed. Nothing is written.
pub fn check(bytes: &[u8], links: &[u16], words: &[u32]) -> bool
    ensures { Decides (WellFormed bytes.now links.now words.now) result }
{
    if bytes.len() != BYTES || links.len() != LINKS || words.len() != WORDS {
        return false;
    }
    check_shape(links) && check_fields(bytes, links, words)
}
