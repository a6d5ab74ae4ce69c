// A call on slices of any length and content: the check of the store, then the step of the kernel.
#![tactic(auto)]

ghost use Rattle.kernel_step.specs.Slices.{slices};
ghost use Rattle.kernel_call.specs.Calls.{Calls};

use call_steps::request::{Reply, Request};
use kernel_check::check;
use kernel_step::step;
use values::refusal::Refusal;

// Any call on any store; `text` are write's data or send's message.
pub fn call(
    bytes: &mut [u8],
    links: &mut [u16],
    words: &mut [u32],
    text: &[u8],
    buffer: &mut [u8],
    scratch: &mut [u16],
    req: Request,
) -> Reply
    ensures { Calls req text.now result
        (slices bytes.old links.old words.old buffer.old scratch.old)
        (slices bytes.new links.new words.new buffer.new scratch.new) }
{
    if !check(bytes, links, words) {
        return Err(Refusal::IllFormed);
    }
    step(bytes, links, words, text, buffer, scratch, req)
}
