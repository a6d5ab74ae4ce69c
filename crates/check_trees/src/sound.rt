// 01, "A record is sound when its links agree with its neighbours' and every child in its chain is sound": the check of
// one record calls the check of a child chain, which calls it back; the count of unvisited records falls.
ghost use Rattle.std.specs.Prelude.{◌≡◌, length};
ghost use Rattle.layout.specs.Layout;
ghost use Rattle.layout.specs.Decides.{Decides};
ghost use Rattle.check_chains.specs.Marking.{Marking};
ghost use Rattle.check_chains.specs.Parts.{Checkable};
ghost use Rattle.check_trees.specs.Parts.{AgreeIn, record_at, children_from};

use layout::{FIRST_CHILD, NEXT_CAP, OWNER, PARENT, PREV_CAP};
use values::limit::MAX_CAPS;

// The last slot, as a link.
const LAST: u16 = MAX_CAPS as u16;

// Record j is one of object o, below `parent` and after `prev`.
fn agrees(links: &[u16], o: u16, j: u16, parent: u16, prev: u16) -> bool
    requires { length links.now ≡ Layout.LINKS }
    ensures { Decides (AgreeIn links.now o parent prev j) result }
{
    if j == 0 || LAST < j {
        return false;
    }
    let i = usize::from(j);
    links[OWNER + i] == o && links[PARENT + i] == parent && links[PREV_CAP + i] == prev
}

// It is sound: it agrees, and so does all that is below it.
#[cycle(check_chain_check_record)]
pub(crate) fn check_record(
    links: &[u16],
    seen: &mut [u8],
    o: u16,
    j: u16,
    parent: u16,
    prev: u16,
) -> bool
    requires { Checkable links.now seen.old }
    ensures { Marking (record_at links.now o parent prev j)
        seen.old seen.new result }
{
    if !agrees(links, o, j, parent, prev) {
        return false;
    }
    let i = usize::from(j);
    let mark = seen[i];
    if mark != 0 {
        return false;
    }
    seen[i] = 1;
    let first = links[FIRST_CHILD + i];
    if first == 0 {
        return true;
    }
    check_chain(links, seen, o, first, j, 0)
}

// The records from head on are sound, below `parent`, and the first is after `prev`.
#[cycle(check_chain_check_record)]
fn check_chain(links: &[u16], seen: &mut [u8], o: u16, head: u16, parent: u16, prev: u16) -> bool
    requires { Checkable links.now seen.old }
    ensures { Marking (children_from links.now o parent prev head)
        seen.old seen.new result }
{
    let mut j = head;
    let mut back = prev;
    while 0 < j {
        if !check_record(links, seen, o, j, parent, back) {
            return false;
        }
        back = j;
        j = links[NEXT_CAP + usize::from(j)];
    }
    true
}
