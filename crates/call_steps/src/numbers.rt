// A name, a capability and a window in a row of 32-bit numbers.
ghost use Rattle.std.specs.Prelude.{◌≡◌, ◌+◌, ◌≤◌, length};
ghost use Rattle.call_steps.specs.Numbers.{name_at, capability_at, window_at};

use crate::request::{Capability, Name};
use values::window::Window;

// The name whose volume is number i.
pub fn name_at(numbers: &[u32], i: usize) -> Name
    requires { i + 2 ≤ length numbers.now }
    ensures { result ≡ name_at numbers.now i }
{
    Name {
        volume: numbers[i],
        serial: numbers[i + 1],
    }
}

// The capability whose name starts at number i.
pub fn capability_at(numbers: &[u32], i: usize) -> Capability
    requires { i + 4 ≤ length numbers.now }
    ensures { result ≡ capability_at numbers.now i }
{
    Capability {
        name: name_at(numbers, i),
        password: [numbers[i + 2], numbers[i + 3]],
    }
}

// The window, or range, whose start is number i.
pub fn window_at(numbers: &[u32], i: usize) -> Window
    requires { i + 2 ≤ length numbers.now }
    ensures { result ≡ window_at numbers.now i }
{
    Window {
        start: numbers[i],
        end: numbers[i + 1],
    }
}
