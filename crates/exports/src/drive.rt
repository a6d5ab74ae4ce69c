// The loom drive.
ghost use Rattle.std.specs.Prelude.{[]};
ghost use Rattle.layout.specs.WellFormed.{WellFormed};
ghost use Rattle.kernel_step.specs.Slices.{slices};
ghost use Rattle.export_drive.specs.Exported.{Exported};

// Makes a pick: 11 numbers of a request, 5 of the reply. Where either slice has another length, nothing is written, and
// it is 2.
#[unsafe(no_mangle)]
pub extern "C" fn drive_pick(
    bytes: &mut [u8],
    links: &mut [u16],
    words: &mut [u32],
    buffer: &mut [u8],
    request: &[u32],
    reply: &mut [u32],
) -> u32
    ensures { Exported request.now result reply.old reply.new
        (slices bytes.old links.old words.old buffer.old [])
        (slices bytes.new links.new words.new buffer.new []) }
{
    export_drive::pick_by_numbers(bytes, links, words, buffer, request, reply)
}

// The same on a store that its caller has found well formed, which is not checked again. C cannot state that by a type, and
// nothing tests it: on any other store this function may do anything, reading and writing outside the slices included.
#[unsafe(no_mangle)]
pub extern "C" fn drive_pick_unchecked(
    bytes: &mut [u8],
    links: &mut [u16],
    words: &mut [u32],
    buffer: &mut [u8],
    request: &[u32],
    reply: &mut [u32],
) -> u32
    requires { WellFormed bytes.old links.old words.old }
    ensures { Exported request.now result reply.old reply.new
        (slices bytes.old links.old words.old buffer.old [])
        (slices bytes.new links.new words.new buffer.new []) }
{
    export_drive::pick_unchecked_by_numbers(bytes, links, words, buffer, request, reply)
}
