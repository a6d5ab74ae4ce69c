// 01, "a chain of exactly the blocks that its size needs", of every object; all other blocks are in the free list.
ghost use Rattle.std.specs.Prelude.{◌≡◌, length};
ghost use Rattle.rules.specs.Limit;
ghost use Rattle.rules.specs.Store.{blocks};
ghost use Rattle.layout.specs.Layout;
ghost use Rattle.layout.specs.Shape.{Blocks};
ghost use Rattle.layout.specs.Decides.{Decides};
ghost use Rattle.check_chains.specs.Marking.{Marking};
ghost use Rattle.check_chains.specs.Parts.{blocks_of, blocks_of_all, Checkable, CheckableAt};

use crate::chain::{counted, walk};
use crate::marks::full;
use layout::{FIRST_BLOCK, FREE_BLOCKS, MASTER, NEXT_BLOCK, SIZE};
use values::blocks::blocks_of;
use values::limit::{MAX_BLOCKS, MAX_OBJECTS};

// A size as the number of blocks that it needs.
fn need(size: u16) -> usize
    ensures { result ≡ blocks size }
{
    blocks_of(u32::from(size)) as usize
}

// Object o has its blocks; a free object has none.
fn one_blocks(links: &[u16], seen: &mut [u8], o: usize) -> bool
    requires { CheckableAt o links.now seen.old }
    ensures { Marking (blocks_of links.now o) seen.old seen.new result }
{
    let master = links[MASTER + o];
    if master == 0 {
        return true;
    }
    let many = need(links[SIZE + o]);
    let first = usize::from(links[FIRST_BLOCK + o]);
    counted(links, NEXT_BLOCK, MAX_BLOCKS, seen, first, many)
}

// Every object has its blocks.
fn all_blocks(links: &[u16], seen: &mut [u8]) -> bool
    requires { Checkable links.now seen.old }
    ensures { Marking (blocks_of_all links.now Limit.objects) seen.old seen.new result }
{
    for o in (1..=MAX_OBJECTS).rev() {
        if !one_blocks(links, seen, o) {
            return false;
        }
    }
    true
}

// Each block is in one object's chain or in the free list, once.
pub fn check_blocks(links: &[u16]) -> bool
    requires { length links.now ≡ Layout.LINKS }
    ensures { Decides (Blocks links.now) result }
{
    let mut seen = [0u8; MAX_BLOCKS + 1];
    let head = usize::from(links[FREE_BLOCKS]);
    if !all_blocks(links, &mut seen) {
        return false;
    }
    walk(links, NEXT_BLOCK, MAX_BLOCKS, &mut seen, head) && full(&seen, MAX_BLOCKS)
}
