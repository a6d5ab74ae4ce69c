// A write and a read by hook, by rows of numbers: the functions for C hand on to these.
#![tactic(auto)]

ghost use Rattle.std.specs.Prelude.{[]};
ghost use Rattle.call_steps.specs.Request.{read_request, write_request};
ghost use Rattle.kernel_step.specs.Slices.{slices};
ghost use Rattle.call_steps.specs.Numbers.{name_at, capability_at, window_at};
ghost use Rattle.export_hooks.specs.Exported.{Exported, request_length};

use call_steps::numbers::{capability_at, name_at, window_at};
use call_steps::request::{Capability, Name, Reply};
use export_numbers::numbers::{Asks, asked, tell, unfit};
use product_hooks::{read_by_hook, write_by_hook};
use values::window::Window;

// A call by hook: by a caller that presents a capability, on a range. A reply has the numbers of a call's.
#[derive(Clone, Copy)]
pub struct HookAsked {
    pub caller: Name,
    pub presented: Capability,
    pub range: Window,
}

impl Asks for HookAsked {
    type Answer = Reply;

    const LENGTH: usize = 8;

    ghost LENGTH = { request_length };

    ghost meant = { λ l. record { caller = name_at l 0; presented = capability_at l 2; range = window_at l 6 } };

    fn of_numbers(request: &[u32]) -> HookAsked {
        HookAsked {
            caller: name_at(request, 0),
            presented: capability_at(request, 2),
            range: window_at(request, 6),
        }
    }
}

// Writes by hook as the request's numbers say, and writes the reply's; where either slice has another length, nothing.
pub fn write_by_numbers(
    bytes: &mut [u8],
    links: &mut [u16],
    words: &mut [u32],
    text: &[u8],
    request: &[u32],
    reply: &mut [u32],
) -> u32
    ensures { Exported write_request request.now text.now result reply.old reply.new
        (slices bytes.old links.old words.old [] [])
        (slices bytes.new links.new words.new [] []) }
{
    let Some(write) = asked::<HookAsked>(request, reply) else {
        return unfit(bytes, links, words);
    };
    let written = write_by_hook(
        bytes,
        links,
        words,
        text,
        write.caller,
        write.presented,
        write.range,
    );
    tell(written, reply)
}

// Reads by hook in the same way.
pub fn read_by_numbers(
    bytes: &mut [u8],
    links: &mut [u16],
    words: &mut [u32],
    buffer: &mut [u8],
    request: &[u32],
    reply: &mut [u32],
) -> u32
    ensures { Exported read_request request.now [] result reply.old reply.new
        (slices bytes.old links.old words.old buffer.old [])
        (slices bytes.new links.new words.new buffer.new []) }
{
    let Some(read) = asked::<HookAsked>(request, reply) else {
        return unfit(bytes, links, words);
    };
    let answer = read_by_hook(
        bytes,
        links,
        words,
        buffer,
        read.caller,
        read.presented,
        read.range,
    );
    tell(answer, reply)
}
