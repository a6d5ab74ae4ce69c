// A pick by rows of numbers, on any store and on a well-formed one: the functions for C hand on to these.
#![tactic(auto)]

ghost use Rattle.std.specs.Prelude.{[]};
ghost use Rattle.layout.specs.WellFormed.{WellFormed};
ghost use Rattle.kernel_step.specs.Slices.{slices};
ghost use Rattle.export_drive.specs.Exported.{Exported};

use export_numbers::drive::PickAsked;
use export_numbers::numbers::{asked, tell};
use product_drive::{pick, pick_unchecked};
use values::refusal::Refusal;

// Makes the pick that the request's numbers say, and writes the reply's; where either slice has another length, nothing.
pub fn pick_by_numbers(
    bytes: &mut [u8],
    links: &mut [u16],
    words: &mut [u32],
    buffer: &mut [u8],
    request: &[u32],
    reply: &mut [u32],
) -> u32
    ensures { Exported request.now result reply.old reply.new
        (slices bytes.old links.old words.old buffer.old [])
        (slices bytes.new links.new words.new buffer.new []) }
{
    let Some(ask) = asked::<PickAsked>(request, reply) else {
        return u32::from(Refusal::OutOfRange);
    };
    let answer = pick(
        bytes,
        links,
        words,
        buffer,
        ask.caller,
        ask.presented,
        ask.repeat,
        ask.place,
    );
    tell(answer, reply)
}

// The same on a well-formed store, which is not checked.
// kept: beside `pick_by_numbers` it has a `requires`; with the pick as a parameter, the `ensures` of both would be read off
// what that parameter ensures.
pub fn pick_unchecked_by_numbers(
    bytes: &mut [u8],
    links: &mut [u16],
    words: &mut [u32],
    buffer: &mut [u8],
    request: &[u32],
    reply: &mut [u32],
) -> u32
    requires { WellFormed bytes.old links.old words.old }
    ensures { Exported request.now result reply.old reply.new
        (slices bytes.old links.old words.old buffer.old [])
        (slices bytes.new links.new words.new buffer.new []) }
{
    let Some(ask) = asked::<PickAsked>(request, reply) else {
        return u32::from(Refusal::OutOfRange);
    };
    let picked = pick_unchecked(
        bytes,
        links,
        words,
        buffer,
        ask.caller,
        ask.presented,
        ask.repeat,
        ask.place,
    );
    tell(picked, reply)
}
