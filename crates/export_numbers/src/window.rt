// The window question's request and its reply.
ghost use Rattle.call_steps.specs.Numbers.{name_at, capability_at};
ghost use Rattle.export_numbers.specs.Window.{request_length, reply_length, nothing, row};

use crate::numbers::{Asks, Told};
use call_steps::numbers::{capability_at, name_at};
use call_steps::request::{Capability, Name};
use values::refusal::Refusal;
use values::window::Window;

// The window of a capability that a caller presents.
#[derive(Clone, Copy)]
pub struct WindowAsked {
    pub caller: Name,
    pub presented: Capability,
}

impl Asks for WindowAsked {
    type Answer = Result<Window, Refusal>;

    const LENGTH: usize = 6;

    ghost LENGTH = { request_length };

    ghost meant = { λ l. record { caller = name_at l 0; presented = capability_at l 2 } };

    fn of_numbers(request: &[u32]) -> WindowAsked {
        WindowAsked {
            caller: name_at(request, 0),
            presented: capability_at(request, 2),
        }
    }
}

impl Told for Window {
    const LENGTH: usize = 3;

    ghost LENGTH = { reply_length };

    ghost nothing = { nothing };

    ghost numbers = { row };

    fn nothing() -> Window {
        Window { start: 0, end: 0 }
    }

    fn put_row(self, code: u32, reply: &mut [u32]) {
        reply.copy_from_slice(&[code, self.start, self.end]);
    }
}
