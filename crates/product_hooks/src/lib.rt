// Patterns by hook (02, CR 5), a product above the store: a write and a read whose bytes are turned on their way. They use the
// store only by its calls.
#![tactic(auto)]

ghost use Rattle.std.specs.Prelude.{[]};
ghost use Rattle.call_steps.specs.Request.{read_request, write_request};
ghost use Rattle.kernel_step.specs.Slices.{slices};
ghost use Rattle.product_hooks.specs.Hooked.{Hooked};

mod limit;
pub mod pattern;
mod tile;

use call_steps::request::{Capability, Name, Reply, Request};
use kernel_call::call;
use limit::MAX_PATTERN;
use pattern::turn_front;
use values::window::Window;

// A write of the text, turned. One longer than any write's is handed on as it came: it is refused whatever its bytes are.
pub fn write_by_hook(
    bytes: &mut [u8],
    links: &mut [u16],
    words: &mut [u32],
    text: &[u8],
    caller: Name,
    x: Capability,
    range: Window,
) -> Reply
    ensures { Hooked (write_request caller x range) text.now result
        (slices bytes.old links.old words.old [] [])
        (slices bytes.new links.new words.new [] []) }
{
    let req = Request::write(caller, x, range);
    let mut buffer: [u8; 0] = [];
    let mut scratch: [u16; 0] = [];
    if text.len() <= MAX_PATTERN {
        let mut pattern = [0u8; MAX_PATTERN];
        let n = text.len();
        pattern[..n].copy_from_slice(text);
        turn_front(&mut pattern, n);
        return call(
            bytes,
            links,
            words,
            &pattern[..n],
            &mut buffer,
            &mut scratch,
            req,
        );
    }
    call(bytes, links, words, text, &mut buffer, &mut scratch, req)
}

// A read, the bytes that it gives turned.
pub fn read_by_hook(
    bytes: &mut [u8],
    links: &mut [u16],
    words: &mut [u32],
    buffer: &mut [u8],
    caller: Name,
    x: Capability,
    range: Window,
) -> Reply
    ensures { Hooked (read_request caller x range) [] result
        (slices bytes.old links.old words.old buffer.old [])
        (slices bytes.new links.new words.new buffer.new []) }
{
    let req = Request::read(caller, x, range);
    let mut scratch: [u16; 0] = [];
    let given = call(bytes, links, words, b"", buffer, &mut scratch, req)?;
    turn_front(buffer, given.count as usize);
    Ok(given)
}
