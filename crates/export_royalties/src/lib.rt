// A bill by rows of numbers: the function for C hands on to this.
#![tactic(auto)]

ghost use Rattle.std.specs.Prelude.{[]};
ghost use Rattle.kernel_step.specs.Slices.{slices};
ghost use Rattle.export_royalties.specs.Exported.{Exported};

use export_numbers::numbers::{asked, tell, unfit};
use export_numbers::royalties::BillAsked;
use product_royalties::bill;

// Makes the bill that the request's numbers say, and writes the reply's; where either slice has another length, nothing.
pub fn bill_by_numbers(
    bytes: &mut [u8],
    links: &mut [u16],
    words: &mut [u32],
    request: &[u32],
    reply: &mut [u32],
) -> u32
    ensures { Exported request.now result reply.old reply.new
        (slices bytes.old links.old words.old [] [])
        (slices bytes.new links.new words.new [] []) }
{
    let Some(ask) = asked::<BillAsked>(request, reply) else {
        return unfit(bytes, links, words);
    };
    let billed = bill(
        bytes,
        links,
        words,
        ask.caller,
        ask.presented,
        ask.count,
        ask.picks,
    );
    tell(billed, reply)
}
