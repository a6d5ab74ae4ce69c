// The capability of an object with a p1: there is at most one.
ghost use Rattle.std.specs.Prelude.{◌≡◌, List, ℕ, ◌≤◌};
ghost use Rattle.rules.specs.Limit as Limit;
ghost use Rattle.rules.specs.Slots.{find};
ghost use Rattle.layout.specs.View.{view};
ghost use Rattle.layout.specs.Sizes.{LinksWords};
ghost use Rattle.call_steps.specs.Tests.{CapSlot, taken, slot_found};

use crate::groups::last_p1;
use layout::{OWNER, P1};
use values::limit::MAX_CAPS;

// Slot i holds a capability of object o with this p1.
fn has_p1(links: &[u16], words: &[u32], i: usize, o: usize, p1: u32) -> bool
    requires fact_1 { LinksWords links.now words.now }
    requires fact_2 { CapSlot i }
    requires fact_3 { 1 ≤ o }
    ensures { (b : List ℕ) → result ≡ taken (view b links.now words.now) o p1 i }
{
    usize::from(links[OWNER + i]) == o && words[P1 + i] == p1
}

// The slot of the capability of object o with this p1.
pub(crate) fn find_cap(links: &[u16], words: &[u32], o: usize, p1: u32) -> Option<usize>
    requires fact_1 { LinksWords links.now words.now }
    requires fact_2 { 1 ≤ o }
    ensures { (b : List ℕ)
        → result ≡ slot_found (find Limit.caps (taken (view b links.now words.now) o p1)) }
{
    let mut last = MAX_CAPS;
    while let Some(i) = last_p1(words, last, p1) {
        if has_p1(links, words, i, o, p1) {
            return Some(i);
        }
        last = i - 1;
    }
    None
}
