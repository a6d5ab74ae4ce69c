// A capability that has no child ends: it leaves the chain of its siblings and joins the free records.
ghost use Rattle.std.specs.Prelude.{◌≡◌, ◌≤◌};
ghost use Rattle.rules.specs.Limit;
ghost use Rattle.call_prune.specs.Links.{named_at, dropped_links, NamesSlots};

use crate::free::free_cap;
use layout::{FIRST_CHILD, NEXT_CAP, PARENT, PREV_CAP};

// The cell that names a capability with parent p and previous sibling q.
fn named_at(p: usize, q: usize) -> usize
    requires parent { p ≤ Limit.caps }
    requires sibling { q ≤ Limit.caps }
    ensures { result ≡ named_at p q }
{
    if q == 0 {
        FIRST_CHILD + p
    } else {
        NEXT_CAP + q
    }
}

// Ends j, which has no child and is no master.
pub(crate) fn drop_leaf(links: &mut [u16], j: usize)
    requires { NamesSlots links.old j }
    ensures { links.new ≡ dropped_links links.old j }
{
    let p = usize::from(links[PARENT + j]);
    let prev = links[PREV_CAP + j];
    let next = links[NEXT_CAP + j];
    links[named_at(p, usize::from(prev))] = next;
    links[PREV_CAP + usize::from(next)] = prev;
    free_cap(links, j);
}
