// A call on a store that is well formed. A process's: refusals 2, 3 and 4, the fee, 5, 19 and 6, and the call chosen by its
// number. The host's: call 17.
#![tactic(auto)]

ghost use Rattle.layout.specs.WellFormed.{WellFormed};
ghost use Rattle.kernel_step.specs.Slices.{slices};
ghost use Rattle.kernel_step.specs.Steps.{Stepped};

mod own;

use call_day::set_day;
use call_enter::entry::enter;
use call_steps::request::{Reply, Request};
use own::own;
use values::number::DAY;

// Any call, done or refused; `text` are write's data or send's message.
pub fn step(
    bytes: &mut [u8],
    links: &mut [u16],
    words: &mut [u32],
    text: &[u8],
    buffer: &mut [u8],
    scratch: &mut [u16],
    req: Request,
) -> Reply
    requires { WellFormed bytes.old links.old words.old }
    ensures { Stepped req text.now result
        (slices bytes.old links.old words.old buffer.old scratch.old)
        (slices bytes.new links.new words.new buffer.new scratch.new) }
{
    if req.number == DAY {
        return set_day(links, req.day);
    }
    let e = enter(
        bytes,
        links,
        words,
        req,
        text.len(),
        buffer.len(),
        scratch.len(),
    )?;
    own(
        bytes, links, words, text, buffer, scratch, e.me, e.slot, req,
    )
}
