// The chain of free blocks is cut: its first blocks are a new object's chain.
ghost use Rattle.std.specs.Prelude.{◌≤◌, ◌≡◌};
ghost use Rattle.rules.specs.Limit;
ghost use Rattle.call_blocks.specs.Taking.{taken_links, last_taken, Enough};

use layout::{FIRST_BLOCK, FREE_BLOCKS, NEXT_BLOCK};

// The object in slot o takes the first n free blocks, of which this is the last.
pub fn take(links: &mut [u16], o: usize, n: usize, last: usize)
    requires fact_1 { Enough links.old n }
    requires fact_2 { o ≤ Limit.objects }
    requires fact_3 { last ≡ last_taken links.old n }
    ensures { links.new ≡ taken_links links.old o n }
{
    if n == 0 {
        links[FIRST_BLOCK + o] = 0;
        return;
    }
    let head = links[FREE_BLOCKS];
    links[FREE_BLOCKS] = links[NEXT_BLOCK + last];
    links[NEXT_BLOCK + last] = 0;
    links[FIRST_BLOCK + o] = head;
}
