// Walking a chain: its records are marked one by one, and one that is marked already is refused.
ghost use Rattle.check_chains.specs.Marking.{Marking, RowFits, BlankRows};
ghost use Rattle.check_chains.specs.Parts.{chain_in, free_chain_in, Any, Long};

use crate::marks::free_marked;

// There is a chain from head on, by the n links from off on.
pub(crate) fn walk(links: &[u16], off: usize, n: usize, seen: &mut [u8], head: usize) -> bool
    requires { RowFits n off links.now seen.old }
    ensures { Marking (chain_in n off links.now Any head) seen.old seen.new result }
{
    let mut j = head;
    while 0 < j {
        if n < j {
            return false;
        }
        let mark = seen[j];
        if mark != 0 {
            return false;
        }
        seen[j] = 1;
        j = usize::from(links[off + j]);
    }
    true
}

// There is a chain of exactly `need` records.
pub(crate) fn counted(
    links: &[u16],
    off: usize,
    n: usize,
    seen: &mut [u8],
    head: usize,
    need: usize,
) -> bool
    requires { RowFits n off links.now seen.old }
    ensures { Marking (chain_in n off links.now (Long need) head)
        seen.old seen.new result }
{
    let mut j = head;
    let mut left = need;
    while 0 < j {
        if left == 0 {
            return false;
        }
        if n < j {
            return false;
        }
        let mark = seen[j];
        if mark != 0 {
            return false;
        }
        seen[j] = 1;
        j = usize::from(links[off + j]);
        left -= 1;
    }
    left == 0
}

// There is a chain of just the free records: those with 0 in the row from `row` on.
pub fn walk_free(
    links: &[u16],
    off: usize,
    row: usize,
    n: usize,
    seen: &mut [u8],
    head: usize,
) -> bool
    requires { BlankRows n off row links.now seen.old }
    ensures { Marking (free_chain_in n off row links.now head)
        seen.old seen.new result }
{
    walk(links, off, n, seen, head) && free_marked(links, row, n, seen)
}
