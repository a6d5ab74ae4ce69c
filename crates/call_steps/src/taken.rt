// Refusal 12 of derive_cap and rename_obj: "p1 is taken in the object".
ghost use Rattle.std.specs.Prelude.{◌≡◌, List, ℕ, ◌≤◌};
ghost use Rattle.rules.specs.Limit as Limit;
ghost use Rattle.rules.specs.Slots.{some};
ghost use Rattle.layout.specs.View.{view};
ghost use Rattle.layout.specs.Sizes.{LinksWords};
ghost use Rattle.call_steps.specs.Tests.{taken};

use crate::owned::find_cap;

// Some capability of object o has this p1.
pub fn p1_taken(links: &[u16], words: &[u32], o: usize, p1: u32) -> bool
    requires fact_1 { LinksWords links.now words.now }
    requires fact_2 { 1 ≤ o }
    ensures { (b : List ℕ)
        → result ≡ some Limit.caps (taken (view b links.now words.now) o p1) }
{
    find_cap(links, words, o, p1).is_some()
}
