// What a bill hands back.
ghost use Rattle.std.specs.Prelude.{◌≡◌};
ghost use Rattle.values.specs.Refusals.{number_of};
ghost use Rattle.product_royalties.specs.Bills.{refused_bill, billed_by};

use call_steps::request::Reply;
use values::refusal::{DONE, Refusal};

// 0 or the refusal; the count for the next bill; what was taken.
// kept: the code as a number beside the others, since `bills-add-up` speaks of the count that a refusal hands back, too
#[derive(Clone, Copy, Debug, PartialEq, Eq)]
pub struct Billed {
    pub code: u32,
    pub count: u32,
    pub sum: u32,
}

impl Billed {
    // A refusal hands back the count that it was passed.
    pub(crate) fn refused(refusal: Refusal, count: u32) -> Billed
        ensures { result ≡ refused_bill (number_of refusal) count }
    {
        Billed {
            code: u32::from(refusal),
            count,
            sum: 0,
        }
    }

    // The bill of this sum, which brings the count to this total, by the reply to its withdraw.
    pub(crate) fn by(count: u32, total: u32, sum: u32, r: Reply) -> Billed
        ensures { result ≡ billed_by count total sum r }
    {
        match r {
            Ok(_) => Billed {
                code: DONE,
                count: total,
                sum,
            },
            Err(refusal) => Billed::refused(refusal, count),
        }
    }
}
