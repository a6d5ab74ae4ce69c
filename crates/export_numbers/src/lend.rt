// The request of the lending question; the reply is a number.
ghost use Rattle.call_steps.specs.Numbers.{name_at};
ghost use Rattle.export_numbers.specs.Lend.{request_length, wish_at};

use crate::numbers::Asks;
use call_steps::numbers::{name_at, window_at};
use call_steps::request::Name;
use question_lend::Wish;
use values::refusal::Refusal;

// What a lender can lend from a list, which crosses in a slice of its own.
#[derive(Clone, Copy)]
pub struct LendAsked {
    pub lender: Name,
    pub wish: Wish,
}

impl Asks for LendAsked {
    type Answer = Result<u32, Refusal>;

    const LENGTH: usize = 7;

    ghost LENGTH = { request_length };

    ghost meant = { λ l. record { lender = name_at l 0; wish = wish_at l } };

    fn of_numbers(request: &[u32]) -> LendAsked {
        let wish = Wish {
            rights: request[2],
            window: window_at(request, 3),
            sum: request[5],
            last_day: request[6],
        };
        LendAsked {
            lender: name_at(request, 0),
            wish,
        }
    }
}
