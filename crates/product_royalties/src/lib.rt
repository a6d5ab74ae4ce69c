// Royalties by the pick (02, CR 7), a product above the store: a bill for picks, taken by a withdraw. It uses the store only
// by its calls.
#![tactic(auto)]

ghost use Rattle.std.specs.Prelude.{[]};
ghost use Rattle.kernel_step.specs.Slices.{slices};
ghost use Rattle.product_royalties.specs.Bills.{Bills};

pub mod billed;
mod charge;
mod limit;

use billed::Billed;
use call_steps::request::{Capability, Name, Request};
use charge::bill_for;
use kernel_call::call;
use limit::MAX_COUNT;
use values::refusal::Refusal;

// A bill for so many picks more of a pattern, whose count is passed in, on any store.
pub fn bill(
    bytes: &mut [u8],
    links: &mut [u16],
    words: &mut [u32],
    caller: Name,
    x: Capability,
    count: u32,
    picks: u32,
) -> Billed
    ensures { Bills caller x count picks result
        (slices bytes.old links.old words.old [] [])
        (slices bytes.new links.new words.new [] []) }
{
    if picks > MAX_COUNT - count {
        return Billed::refused(Refusal::CountPasses, count);
    }
    let total = count + picks;
    let sum = bill_for(count, picks);
    let req = Request::withdraw(caller, x, sum);
    let mut buffer: [u8; 0] = [];
    let mut scratch: [u16; 0] = [];
    let r = call(bytes, links, words, b"", &mut buffer, &mut scratch, req);
    Billed::by(count, total, sum, r)
}
