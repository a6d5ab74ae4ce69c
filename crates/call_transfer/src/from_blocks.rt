// "read, write: 7 the range is not inside the window. Offsets count from the object's start." The bytes go to the
// buffer's front.
ghost use Rattle.std.specs.Prelude.{◌≤◌, ◌≡◌, length};
ghost use Rattle.call_steps.specs.Replies.{Fills};
ghost use Rattle.call_transfer.specs.Runs.{CopyAsks, copied_out, ReadAsks, read_run};

use crate::part::part_of;
use crate::window::{first_block, in_window};
use call_blocks::chain::{block_at, next_block};
use call_steps::copy::copy;
use call_steps::request::{Given, Reply};
use layout::DATA;
use values::limit::BLOCK_SIZE;
use values::refusal::Refusal;
use values::window::Window;

// n bytes from start on, of the object whose first block is head, to the buffer's front.
fn copy_out(bytes: &[u8], links: &[u16], buffer: &mut [u8], head: usize, start: usize, n: usize)
    requires fact_1 { CopyAsks bytes.now links.now head start n }
    requires fact_2 { n ≤ length buffer.old }
    ensures { buffer.new
        ≡ copied_out bytes.now links.now head start n buffer.old }
{
    let mut block = block_at(links, head, start / BLOCK_SIZE);
    let mut i: usize = 0;
    // kept: a turn goes on by the part that it copied, from any byte of a block to at most its end; chunks would need the
    // first part apart from the rest, with a second copy
    while i < n {
        let p = start + i;
        let m = part_of(p, n - i);
        let from = DATA + block * BLOCK_SIZE + p % BLOCK_SIZE;
        copy(bytes, from, buffer, i, m);
        block = next_block(links, block);
        i += m;
    }
}

// The bytes in the range, of the object that capability k is for.
pub fn read(
    bytes: &[u8],
    links: &[u16],
    words: &[u32],
    buffer: &mut [u8],
    k: usize,
    range: Window,
) -> Reply
    requires { ReadAsks bytes.now links.now words.now buffer.old k range.start range.end }
    ensures { Fills result bytes.now links.now words.now buffer.old
        buffer.new (read_run bytes.now links.now words.now k range.start range.end) }
{
    if !in_window(words, k, range) {
        return Err(Refusal::OutsideWindow);
    }
    let head = first_block(links, k);
    let start = range.start as usize;
    let count = range.end - range.start;
    copy_out(bytes, links, buffer, head, start, count as usize);
    Ok(Given::hands_over(0, count))
}
