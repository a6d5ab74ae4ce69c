// The request of the count of passwords; the reply is a number.
ghost use Rattle.call_steps.specs.Numbers.{name_at};
ghost use Rattle.export_numbers.specs.Count.{request_length, right_of};

use crate::numbers::Asks;
use call_steps::numbers::name_at;
use call_steps::request::Name;
use values::refusal::Refusal;

// How many passwords, presented by a process for an object, would get past 5 and 6 for a right.
#[derive(Clone, Copy)]
pub struct CountAsked {
    pub process: Name,
    pub object: Name,
    pub right: u32,
}

impl Asks for CountAsked {
    type Answer = Result<u32, Refusal>;

    const LENGTH: usize = 5;

    ghost LENGTH = { request_length };

    ghost meant = { λ l. record { process = name_at l 0; object = name_at l 2; right = right_of l } };

    fn of_numbers(request: &[u32]) -> CountAsked {
        CountAsked {
            process: name_at(request, 0),
            object: name_at(request, 2),
            right: request[4],
        }
    }
}
