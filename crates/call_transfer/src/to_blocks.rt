// "read, write: 7 the range is not inside the window. Offsets count from the object's start." The bytes come from the
// text.
ghost use Rattle.std.specs.Prelude.{◌≡◌, length};
ghost use Rattle.call_steps.specs.Replies.{Replies};
ghost use Rattle.call_transfer.specs.Runs.{CopyAsks, copied_in, WriteAsks, write_run};

use crate::part::part_of;
use crate::window::{first_block, in_window};
use call_blocks::chain::{block_at, next_block};
use call_steps::copy::copy;
use call_steps::request::{Given, Reply};
use layout::DATA;
use values::limit::BLOCK_SIZE;
use values::refusal::Refusal;
use values::window::Window;

// The text to the bytes from start on of the object whose first block is head.
fn copy_in(bytes: &mut [u8], links: &[u16], text: &[u8], head: usize, start: usize)
    requires { CopyAsks bytes.old links.now head start (length text.now) }
    ensures { bytes.new ≡ copied_in links.now head start text.now
        (length text.now) bytes.old }
{
    let mut block = block_at(links, head, start / BLOCK_SIZE);
    let mut i: usize = 0;
    // kept: as in `copy_out`; one loop for both would be lent a closure that writes, and be told by it what it wrote
    while i < text.len() {
        let p = start + i;
        let m = part_of(p, text.len() - i);
        let to = DATA + block * BLOCK_SIZE + p % BLOCK_SIZE;
        copy(text, i, bytes, to, m);
        block = next_block(links, block);
        i += m;
    }
}

// The bytes in the range, of the object that capability k is for, become the text.
pub fn write(
    bytes: &mut [u8],
    links: &[u16],
    words: &[u32],
    text: &[u8],
    k: usize,
    range: Window,
) -> Reply
    requires { WriteAsks bytes.old links.now words.now text.now k range.start range.end }
    ensures { Replies result bytes.new links.now words.now
        (write_run bytes.old links.now words.now k range.start range.end text.now) }
{
    if !in_window(words, k, range) {
        return Err(Refusal::OutsideWindow);
    }
    let head = first_block(links, k);
    copy_in(bytes, links, text, head, range.start as usize);
    Ok(Given::done())
}
