// All descendants of a capability end. No stack is needed: down by first children to a leaf, which ends, and on at its
// parent, until the capability is a leaf itself.
ghost use Rattle.std.specs.Prelude.{◌≡◌};
ghost use Rattle.call_prune.specs.Links.{pruned_links, NamesSlots, LivingCap, TurnLeaves};

use crate::leaf::drop_leaf;
use layout::{FIRST_CHILD, PARENT};

// One turn at slot j: down to its first child, or up from it once it has ended; none where k itself is a leaf.
fn turn(links: &mut [u16], k: usize, j: usize) -> Option<usize>
    requires { NamesSlots links.old j }
    ensures { TurnLeaves links.old k j links.new result }
{
    let child = usize::from(links[FIRST_CHILD + j]);
    if child != 0 {
        return Some(child);
    }
    if j == k {
        return None;
    }
    let up = usize::from(links[PARENT + j]);
    drop_leaf(links, j);
    Some(up)
}

// Ends all below k, and leaves k alive.
pub fn prune_below(links: &mut [u16], k: usize)
    requires { LivingCap links.old k }
    ensures { links.new ≡ pruned_links links.old k }
{
    let mut j = k;
    while let Some(next) = turn(links, k, j) {
        j = next;
    }
}
