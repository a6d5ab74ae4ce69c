// Patterns by hook.
ghost use Rattle.std.specs.Prelude.{◌≡◌, []};
ghost use Rattle.call_steps.specs.Request.{read_request, write_request};
ghost use Rattle.kernel_step.specs.Slices.{slices};
ghost use Rattle.product_hooks.specs.Turned.{turned};
ghost use Rattle.export_hooks.specs.Exported.{Exported};

use product_hooks::pattern::turn;

// Writes by hook: 8 numbers of a request, 9 of the reply. Where either slice has another length, nothing is written, and
// it is 1 on a store that is not well formed, else 2.
#[unsafe(no_mangle)]
pub extern "C" fn hook_write(
    bytes: &mut [u8],
    links: &mut [u16],
    words: &mut [u32],
    text: &[u8],
    request: &[u32],
    reply: &mut [u32],
) -> u32
    ensures { Exported write_request request.now text.now result reply.old reply.new
        (slices bytes.old links.old words.old [] [])
        (slices bytes.new links.new words.new [] []) }
{
    export_hooks::write_by_numbers(bytes, links, words, text, request, reply)
}

// Reads by hook, in the same way.
#[unsafe(no_mangle)]
pub extern "C" fn hook_read(
    bytes: &mut [u8],
    links: &mut [u16],
    words: &mut [u32],
    buffer: &mut [u8],
    request: &[u32],
    reply: &mut [u32],
) -> u32
    ensures { Exported read_request request.now [] result reply.old reply.new
        (slices bytes.old links.old words.old buffer.old [])
        (slices bytes.new links.new words.new buffer.new []) }
{
    export_hooks::read_by_numbers(bytes, links, words, buffer, request, reply)
}

// Turns a pattern where it stands, without a store.
#[unsafe(no_mangle)]
pub extern "C" fn hook_turn(pattern: &mut [u8])
    ensures { pattern.new ≡ turned pattern.old }
{
    turn(pattern);
}
