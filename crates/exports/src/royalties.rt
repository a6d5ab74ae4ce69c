// Royalties by the pick.
ghost use Rattle.std.specs.Prelude.{[]};
ghost use Rattle.kernel_step.specs.Slices.{slices};
ghost use Rattle.export_royalties.specs.Exported.{Exported};

// Makes a bill: 8 numbers of a request, 3 of the reply. Where either slice has another length, nothing is written, and it
// is 1 on a store that is not well formed, else 2.
#[unsafe(no_mangle)]
pub extern "C" fn royalty_bill(
    bytes: &mut [u8],
    links: &mut [u16],
    words: &mut [u32],
    request: &[u32],
    reply: &mut [u32],
) -> u32
    ensures { Exported request.now result reply.old reply.new
        (slices bytes.old links.old words.old [] [])
        (slices bytes.new links.new words.new [] []) }
{
    export_royalties::bill_by_numbers(bytes, links, words, request, reply)
}
