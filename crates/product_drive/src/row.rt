// A row of the presented capability's window, and its paid read.
ghost use Rattle.std.specs.Prelude.{◌≡◌, true, IfOk};
ghost use Rattle.values.specs.Refusals.{code_of};
ghost use Rattle.call_steps.specs.Request.{read_request};
ghost use Rattle.product_drive.specs.Drive.{repeat_fits, fits, holds_repeat, row_of};
ghost use Rattle.product_drive.specs.Picks.{unread, told};

use crate::repeat::{Place, Repeat};
use call_steps::request::{Capability, Name, Request};
use values::refusal::Refusal;
use values::window::Window;

// The window is N × W bytes long.
fn holds_repeat(window: Window, repeat: Repeat) -> bool
    requires { repeat_fits repeat ≡ true }
    ensures { result ≡ holds_repeat window repeat }
{
    window.start <= window.end && window.end - window.start == repeat.picks * repeat.row
}

// The window of which a row is to be read: none where the question refused, by 17 where it is not as long as the repeat.
pub(crate) fn readable(repeat: Repeat, answer: Result<Window, Refusal>) -> Result<Window, Refusal>
    requires { repeat_fits repeat ≡ true }
    ensures code { code_of result ≡ unread repeat answer }
    ensures window { IfOk result (λ window. window ≡ told answer) }
{
    let window = answer?;
    if holds_repeat(window, repeat) {
        Ok(window)
    } else {
        Err(Refusal::WrongLength)
    }
}

// The read of the row of the pick at this place.
pub(crate) fn row_request(
    caller: Name,
    x: Capability,
    window: Window,
    repeat: Repeat,
    place: Place,
) -> Request
    requires fact_1 { fits repeat place ≡ true }
    requires fact_2 { holds_repeat window repeat ≡ true }
    ensures { result ≡ read_request caller x (row_of window repeat place.next) }
{
    let start = window.start + (place.next - 1) * repeat.row;
    let row = Window {
        start,
        end: start + repeat.row,
    };
    Request::read(caller, x, row)
}
