// A call, and a step on a well-formed store, by rows of numbers: the functions for C hand on to these.
#![tactic(auto)]

ghost use Rattle.layout.specs.WellFormed.{WellFormed};
ghost use Rattle.kernel_step.specs.Slices.{slices};
ghost use Rattle.export_calls.specs.Exported.{Exported};

use call_steps::request::Request;
use export_numbers::numbers::{asked, tell, unfit};
use values::refusal::Refusal;

// Makes the call that the request's numbers say, and writes the reply's; where either slice has another length, nothing.
pub fn call_by_numbers(
    bytes: &mut [u8],
    links: &mut [u16],
    words: &mut [u32],
    text: &[u8],
    buffer: &mut [u8],
    scratch: &mut [u16],
    request: &[u32],
    reply: &mut [u32],
) -> u32
    ensures { Exported request.now text.now result reply.old reply.new
        (slices bytes.old links.old words.old buffer.old scratch.old)
        (slices bytes.new links.new words.new buffer.new scratch.new) }
{
    let Some(call) = asked::<Request>(request, reply) else {
        return unfit(bytes, links, words);
    };
    let answer = kernel_call::call(bytes, links, words, text, buffer, scratch, call);
    tell(answer, reply)
}

// The same on a well-formed store, which is not checked.
// kept: beside `call_by_numbers` it has a `requires`, and no 1 where the lengths do not fit; with the step as a parameter,
// the `ensures` of both would be read off what that parameter ensures.
pub fn step_by_numbers(
    bytes: &mut [u8],
    links: &mut [u16],
    words: &mut [u32],
    text: &[u8],
    buffer: &mut [u8],
    scratch: &mut [u16],
    request: &[u32],
    reply: &mut [u32],
) -> u32
    requires { WellFormed bytes.old links.old words.old }
    ensures { Exported request.now text.now result reply.old reply.new
        (slices bytes.old links.old words.old buffer.old scratch.old)
        (slices bytes.new links.new words.new buffer.new scratch.new) }
{
    let Some(call) = asked::<Request>(request, reply) else {
        return u32::from(Refusal::OutOfRange);
    };
    let stepped = kernel_step::step(bytes, links, words, text, buffer, scratch, call);
    tell(stepped, reply)
}
