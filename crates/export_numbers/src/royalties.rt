// A bill's request and its reply.
ghost use Rattle.call_steps.specs.Numbers.{name_at, capability_at};
ghost use Rattle.export_numbers.specs.Royalties.{request_length, reply_length, count_of, picks_of, numbers_of};

use crate::numbers::{Asks, Tells};
use call_steps::numbers::{capability_at, name_at};
use call_steps::request::{Capability, Name};
use product_royalties::billed::Billed;

// A bill by a caller that presents a capability: the count that was handed back before, and the picks.
#[derive(Clone, Copy)]
pub struct BillAsked {
    pub caller: Name,
    pub presented: Capability,
    pub count: u32,
    pub picks: u32,
}

impl Asks for BillAsked {
    type Answer = Billed;

    const LENGTH: usize = 8;

    ghost LENGTH = { request_length };

    ghost meant = { λ l. record { caller = name_at l 0; presented = capability_at l 2; count = count_of l; picks = picks_of l } };

    fn of_numbers(request: &[u32]) -> BillAsked {
        BillAsked {
            caller: name_at(request, 0),
            presented: capability_at(request, 2),
            count: request[6],
            picks: request[7],
        }
    }
}

impl Tells for Billed {
    const LENGTH: usize = 3;

    ghost LENGTH = { reply_length };

    ghost numbers = { numbers_of };

    #[tactic(auto, unfolding(crate::specs::Royalties::numbers_of))]
    fn put(self, reply: &mut [u32]) {
        reply.copy_from_slice(&[self.code, self.count, self.sum]);
    }
}
