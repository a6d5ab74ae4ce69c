// A line after line one: its call is made and answered, and a bad line is answered 2.
ghost use Rattle.std.specs.Prelude.{◌≤◌, length, take};
ghost use Rattle.script_text.specs.Lines.{most_numbers};
ghost use Rattle.script_play.specs.Plays.{Fits, Fitting};
ghost use Rattle.script_play.specs.Workspace.{Works, Asks, PlayedIn, PlaysIn, StaysLent};

use crate::workspace::Workspace;
use kernel_step::step;
use script_answers::answer::answer_line;
use script_answers::ends::bad_line;
use script_lines::fits::line_fits;
use script_lines::request::request_of;
use script_lines::text::text_of;
use script_text::read::read_line;

// The numbers of a line that fits its call, into the front of `numbers`, and how many they are; none for a bad line.
fn fitting(line: &[u8], numbers: &mut [u32]) -> Option<usize>
    requires { most_numbers ≤ length numbers.old }
    ensures { Fitting line.now numbers.new result }
{
    let count = read_line(line, numbers);
    if line_fits(&numbers[..count]) {
        return Some(count);
    }
    None
}

// The call that the first `count` numbers say.
fn good_line(room: &mut Workspace, count: usize, number: u64, out: &mut [u8], at: usize) -> usize
    requires asks { Asks room.old out.old at }
    requires working { Works room.old }
    requires fits { Fits room.old.numbers.now count }
    ensures played { PlayedIn (take count room.old.numbers.now) number room.old room.new out.old at out.new result }
    ensures lent { StaysLent room.old room.new }
{
    let numbers = &mut room.numbers[..count];
    let req = request_of(numbers);
    let n = text_of(numbers, room.text);
    let reply = step(
        room.bytes,
        room.links,
        room.words,
        &mut room.text[..n],
        room.buffer,
        room.scratch,
        req,
    );
    answer_line(out, at, number, req.number, reply, room.buffer)
}

// A line, without its end, on the store; its answer goes into `out` from place `at` on.
pub fn play_line(room: &mut Workspace, line: &[u8], number: u64, out: &mut [u8], at: usize) -> usize
    requires asks { Asks room.old out.old at }
    requires working { Works room.old }
    ensures plays { PlaysIn line.now number room.old room.new out.old at out.new result }
    ensures lent { StaysLent room.old room.new }
{
    match fitting(line, room.numbers) {
        Some(count) => good_line(room, count, number, out, at),
        None => bad_line(out, at, number),
    }
}
