// The blocks of an object, given back: its chain stands in front of the free blocks.
ghost use Rattle.std.specs.Prelude.{◌≡◌};
ghost use Rattle.call_ending.specs.Links.{instead, last_block, given_blocks, BlocksAsk};

use call_blocks::chain::block_at;
use layout::{FIRST_BLOCK, FREE_BLOCKS, NEXT_BLOCK, SIZE};
use values::blocks::blocks_of;

// x, but z where x is y.
pub(crate) fn instead(x: u16, y: u16, z: u16) -> u16
    ensures { result ≡ instead x y z }
{
    if x == y { z } else { x }
}

// The last block of the object in slot o, 0 if it has none.
fn last_block(links: &[u16], o: usize) -> usize
    requires { BlocksAsk links.now o }
    ensures { result ≡ last_block links.now o }
{
    let first = usize::from(links[FIRST_BLOCK + o]);
    let n = blocks_of(u32::from(links[SIZE + o]));
    // kept: `as` in last_block: a usize has no From of a u32
    block_at(links, first, n.saturating_sub(1) as usize)
}

// The last one is linked to the free ones, and the first is the head.
#[tactic(auto, using(crate::proofs::Walking::last_high))]
pub(crate) fn give_blocks(links: &mut [u16], o: usize)
    requires { BlocksAsk links.old o }
    ensures { links.new ≡ given_blocks links.old o }
{
    let last = last_block(links, o);
    let free = links[FREE_BLOCKS];
    let head = instead(links[FIRST_BLOCK + o], 0, free);
    links[NEXT_BLOCK + last] = free;
    links[FREE_BLOCKS] = head;
}
