// The capabilities: 01, "every object has one tree with one sound master"; all other records are in the free list.
ghost use Rattle.std.specs.Prelude.{◌≡◌, length};
ghost use Rattle.rules.specs.Limit;
ghost use Rattle.layout.specs.Layout;
ghost use Rattle.layout.specs.Shape.{Caps};
ghost use Rattle.layout.specs.Decides.{Decides};
ghost use Rattle.check_chains.specs.Marking.{Marking};
ghost use Rattle.check_chains.specs.Parts.{Checkable, CheckableAt};
ghost use Rattle.check_trees.specs.Parts.{tree_at, trees_of_all};

use crate::sound::check_record;
use check_chains::chain::walk_free;
use check_chains::marks::full;
use layout::{FREE_CAPS, MASTER, NEXT_CAP, OWNER};
use values::limit::{MAX_CAPS, MAX_OBJECTS};

// The last object's slot, as a link.
const LAST_OBJECT: u16 = MAX_OBJECTS as u16;

// Object o has its tree: its master, with no parent and no sibling. A free object has none.
fn one_tree(links: &[u16], seen: &mut [u8], o: u16) -> bool
    requires { CheckableAt o links.now seen.old }
    ensures { Marking (tree_at links.now o) seen.old seen.new result }
{
    let master = links[MASTER + usize::from(o)];
    if master == 0 {
        return true;
    }
    check_record(links, seen, o, master, 0, 0) && links[NEXT_CAP + usize::from(master)] == 0
}

// Every object has its tree.
fn all_trees(links: &[u16], seen: &mut [u8]) -> bool
    requires { Checkable links.now seen.old }
    ensures { Marking (trees_of_all links.now Limit.objects) seen.old seen.new result }
{
    for o in (1..=LAST_OBJECT).rev() {
        if !one_tree(links, seen, o) {
            return false;
        }
    }
    true
}

// Each capability is in the free list or in one object's tree, once.
pub(crate) fn check_caps(links: &[u16]) -> bool
    requires { length links.now ≡ Layout.LINKS }
    ensures { Decides (Caps links.now) result }
{
    let mut seen = [0u8; MAX_CAPS + 1];
    let head = usize::from(links[FREE_CAPS]);
    if !walk_free(links, NEXT_CAP, OWNER, MAX_CAPS, &mut seen, head) {
        return false;
    }
    all_trees(links, &mut seen) && full(&seen, MAX_CAPS)
}
