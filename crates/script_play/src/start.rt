// Line one of a script makes the store.
ghost use Rattle.std.specs.Prelude.{◌≤◌, length};
ghost use Rattle.script_text.specs.Lines.{most_numbers};
ghost use Rattle.script_play.specs.Starts.{Opens};
ghost use Rattle.script_play.specs.Workspace.{SizedIn, StartsIn, StaysLent, LentUnchanged};

use crate::workspace::Workspace;
use kernel_fresh::fresh;
use script_lines::first::{First, first_line};
use script_text::read::read_line;

// What line one says, its numbers read into the front of `numbers`; nothing for a bad one.
fn opening(line: &[u8], numbers: &mut [u32]) -> Option<First>
    requires { most_numbers ≤ length numbers.old }
    ensures { Opens line.now result }
{
    let count = read_line(line, numbers);
    first_line(&numbers[..count]).ok()
}

// "Line one is supply, p1, p2": true, and the store is fresh; or false, and no slice of it is written.
pub fn start(room: &mut Workspace, line: &[u8]) -> bool
    requires sized { SizedIn room.old }
    requires numbers { most_numbers ≤ length room.old.numbers.now }
    ensures starts { StartsIn line.now room.old room.new result }
    ensures lent { StaysLent room.old room.new }
    ensures unchanged { LentUnchanged room.old room.new }
{
    match opening(line, room.numbers) {
        Some(first) => fresh(
            first.supply,
            first.password,
            room.bytes,
            room.links,
            room.words,
        )
        .is_ok(),
        None => false,
    }
}
