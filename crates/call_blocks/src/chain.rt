// Chains of blocks, from their heads on: zero ends each.
ghost use Rattle.std.specs.Prelude.{◌≤◌, ◌≡◌, length};
ghost use Rattle.rules.specs.Limit;
ghost use Rattle.layout.specs.Layout;
ghost use Rattle.layout.specs.Rows.{next_block_of};
ghost use Rattle.call_blocks.specs.Walk.{hop, Blocked};
ghost use Rattle.call_blocks.specs.Taking.{free_head, too_few, FreeChain};

use layout::{FREE_BLOCKS, NEXT_BLOCK};

// The block after block k; 0 after 0.
pub fn next_block(links: &[u16], k: usize) -> usize
    requires { (length links.now ≡ Layout.LINKS) × (k ≤ Limit.blocks) }
    ensures { result ≡ next_block_of links.now k }
{
    if k == 0 {
        return 0;
    }
    usize::from(links[NEXT_BLOCK + k])
}

// The block n steps after the first, 0 if the chain ends before.
pub fn block_at(links: &[u16], head: usize, n: usize) -> usize
    requires { (length links.now ≡ Layout.LINKS) × Blocked links.now head n }
    ensures { result ≡ hop (next_block_of links.now) n head }
{
    let mut block = head;
    for _ in 0..n {
        block = next_block(links, block);
    }
    block
}

// The first free block.
pub(crate) fn free_head(links: &[u16]) -> usize
    requires { length links.now ≡ Layout.LINKS }
    ensures { result ≡ free_head links.now }
{
    usize::from(links[FREE_BLOCKS])
}

// There are fewer than n free blocks.
pub fn too_few(links: &[u16], n: usize) -> bool
    requires { FreeChain links.now }
    ensures { result ≡ too_few links.now n }
{
    if n == 0 {
        return false;
    }
    block_at(links, free_head(links), n - 1) == 0
}
