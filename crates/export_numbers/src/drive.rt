// A pick's request and its reply.
ghost use Rattle.call_steps.specs.Numbers.{name_at, capability_at};
ghost use Rattle.export_numbers.specs.Drive.{request_length, reply_length, repeat_of, place_of, numbers_of};

use crate::numbers::{Asks, Tells};
use call_steps::numbers::{capability_at, name_at};
use call_steps::request::{Capability, Name};
use product_drive::picked::Picked;
use product_drive::repeat::{Place, Repeat};

// A pick by a caller that presents a capability: N, C and W, and the next pick and the steps so far.
#[derive(Clone, Copy)]
pub struct PickAsked {
    pub caller: Name,
    pub presented: Capability,
    pub repeat: Repeat,
    pub place: Place,
}

impl Asks for PickAsked {
    type Answer = Picked;

    const LENGTH: usize = 11;

    ghost LENGTH = { request_length };

    ghost meant = { λ l. record { caller = name_at l 0; presented = capability_at l 2; repeat = repeat_of l; place = place_of l } };

    #[tactic(auto, unfolding(crate::specs::Drive::repeat_of, crate::specs::Drive::place_of))]
    fn of_numbers(request: &[u32]) -> PickAsked {
        let repeat = Repeat {
            picks: request[6],
            counts: request[7],
            row: request[8],
        };
        let place = Place {
            next: request[9],
            steps: request[10],
        };
        PickAsked {
            caller: name_at(request, 0),
            presented: capability_at(request, 2),
            repeat,
            place,
        }
    }
}

impl Tells for Picked {
    const LENGTH: usize = 5;

    ghost LENGTH = { reply_length };

    ghost numbers = { numbers_of };

    #[tactic(auto, unfolding(crate::specs::Drive::numbers_of))]
    fn put(self, reply: &mut [u32]) {
        reply.copy_from_slice(&[
            self.code,
            self.step,
            self.place.next,
            self.place.steps,
            self.count,
        ]);
    }
}
