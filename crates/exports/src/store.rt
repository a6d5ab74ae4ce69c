// The check, the fresh store and the calls.
ghost use Rattle.std.specs.Prelude.{◌≡◌, ◌∷◌, []};
ghost use Rattle.layout.specs.WellFormed.{WellFormed};
ghost use Rattle.layout.specs.Decides.{Decides};
ghost use Rattle.values.specs.Words.{password_of};
ghost use Rattle.kernel_fresh.specs.Fresh.{Fresh};
ghost use Rattle.kernel_step.specs.Slices.{slices};
ghost use Rattle.export_calls.specs.Exported.{Exported};

use values::refusal::code_of;

// Whether the store is well formed.
#[unsafe(no_mangle)]
pub extern "C" fn store_check(bytes: &[u8], links: &[u16], words: &[u32]) -> bool
    ensures { Decides (WellFormed bytes.now links.now words.now) result }
{
    kernel_check::check(bytes, links, words)
}

// Makes a fresh store.
#[unsafe(no_mangle)]
pub extern "C" fn store_fresh(
    supply: u32,
    p1: u32,
    p2: u32,
    bytes: &mut [u8],
    links: &mut [u16],
    words: &mut [u32],
) -> u32
    ensures { Fresh supply (password_of (p1 ∷ p2 ∷ [])) bytes.old links.old words.old
        bytes.new links.new words.new result }
{
    let made = kernel_fresh::fresh(supply, [p1, p2], bytes, links, words);
    code_of(&made)
}

// Makes a call: 22 numbers of a request, 9 of the reply. Where either slice has another length, nothing is written, and
// it is 1 on a store that is not well formed, else 2.
#[unsafe(no_mangle)]
pub extern "C" fn store_call(
    bytes: &mut [u8],
    links: &mut [u16],
    words: &mut [u32],
    text: &[u8],
    buffer: &mut [u8],
    scratch: &mut [u16],
    request: &[u32],
    reply: &mut [u32],
) -> u32
    ensures { Exported request.now text.now result reply.old reply.new
        (slices bytes.old links.old words.old buffer.old scratch.old)
        (slices bytes.new links.new words.new buffer.new scratch.new) }
{
    export_calls::call_by_numbers(bytes, links, words, text, buffer, scratch, request, reply)
}

// The same on a store that its caller has found well formed, which is not checked again. C cannot state that by a type, and
// nothing tests it: on any other store this function may do anything, reading and writing outside the slices included.
#[unsafe(no_mangle)]
pub extern "C" fn store_step_unchecked(
    bytes: &mut [u8],
    links: &mut [u16],
    words: &mut [u32],
    text: &[u8],
    buffer: &mut [u8],
    scratch: &mut [u16],
    request: &[u32],
    reply: &mut [u32],
) -> u32
    requires { WellFormed bytes.old links.old words.old }
    ensures { Exported request.now text.now result reply.old reply.new
        (slices bytes.old links.old words.old buffer.old scratch.old)
        (slices bytes.new links.new words.new buffer.new scratch.new) }
{
    export_calls::step_by_numbers(bytes, links, words, text, buffer, scratch, request, reply)
}
