// "New bytes are zero."
ghost use Rattle.std.specs.Prelude.{◌≤◌, ◌≡◌, length};
ghost use Rattle.rules.specs.Limit;
ghost use Rattle.layout.specs.Layout;
ghost use Rattle.call_blocks.specs.Taking.{zeroed, data_from, cleared_bytes, last_taken, Enough};

use crate::chain::{free_head, next_block};
use layout::DATA;
use values::limit::BLOCK_SIZE;

// The bytes of block k.
fn clear_block(bytes: &mut [u8], k: usize)
    requires { (length bytes.old ≡ Layout.BYTES) × (k ≤ Limit.blocks) }
    ensures { bytes.new ≡ zeroed Limit.block (data_from k) bytes.old }
{
    let from = DATA + k * BLOCK_SIZE;
    bytes[from..from + BLOCK_SIZE].fill(0);
}

// The bytes of the first n free blocks; the last of the blocks, 0 if there is none.
pub fn clear(bytes: &mut [u8], links: &[u16], n: usize) -> usize
    requires fact_1 { length bytes.old ≡ Layout.BYTES }
    requires fact_2 { Enough links.now n }
    ensures fact_1 { bytes.new ≡ cleared_bytes bytes.old links.now n }
    ensures fact_2 { result ≡ last_taken links.now n }
{
    let mut block = free_head(links);
    let mut last: usize = 0;
    for _ in 0..n {
        clear_block(bytes, block);
        last = block;
        block = next_block(links, block);
    }
    last
}
