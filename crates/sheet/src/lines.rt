// The lines of a window of the input, one at a time, so that the store is seen before and after each.
ghost use Rattle.std.specs.Prelude.{◌≡◌};
ghost use Rattle.script_play.specs.Workspace.{StaysLent};
ghost use Rattle.sheet.specs.Runs.{LineAsks, RunDone};

use crate::output::Output;
use script_answers::answer::ANSWER;
use script_driver::{Run, feed};
use script_play::workspace::Workspace;
use script_text::lines::line_end;
use sheet_draw::ended::{Ended, Ending, Living};
use sheet_draw::store::Store;
use std::fmt::Write;

// The call of a line after line one that may end capabilities: its digit stands before a space. The line is what is
// held of it, and then what the window has.
fn ending_call(number: u64, held: &[u8], window: &[u8]) -> Option<Ending> {
    if number == 0 {
        return None;
    }
    let mut line = held.iter().chain(window);
    let digit = *line.next()?;
    let after = *line.next()?;
    if after == b' ' {
        Ending::of_digit(digit)
    } else {
        None
    }
}

// The store that a script is played on, to be drawn.
pub(crate) fn drawn<'a>(room: &'a Workspace<'a>) -> Store<'a>
    ensures bytes { result.bytes.now ≡ room.now.bytes.now }
    ensures links { result.links.now ≡ room.now.links.now }
    ensures words { result.words.now ≡ room.now.words.now }
{
    Store {
        bytes: room.bytes,
        links: room.links,
        words: room.words,
    }
}

// A line that ends with the window, or a part of one. Its answer is not shown.
fn play_line(room: &mut Workspace, held: &mut [u8], window: &[u8], begun: Run) -> Run
    requires { LineAsks room.old held.old window.now begun }
    ensures done { RunDone room.new held.new window.now begun result }
    ensures lent { StaysLent room.old room.new }
{
    let mut answer = [0u8; ANSWER];
    let run = Run { at: 0, ..begun };
    feed(room, held, window, &mut answer, run).run
}

// A line of a call that may end capabilities: what it ended is shown.
fn ending_line(
    room: &mut Workspace,
    held: &mut [u8],
    window: &[u8],
    out: &mut Output,
    begun: Run,
    call: Ending,
) -> Run
    requires { LineAsks room.old held.old window.now begun }
    ensures done { RunDone room.new held.new window.now begun result }
    ensures lent { StaysLent room.old room.new }
{
    let mut before = Living::NOTHING;
    before.note_all(drawn(room));
    let run = play_line(room, held, window, begun);
    let ended = Ended {
        before: &before,
        after: drawn(room),
        line: begun.number,
        call,
    };
    // the output takes all text
    let _ = write!(out, "{ended}");
    run
}

fn one_line(
    room: &mut Workspace,
    held: &mut [u8],
    window: &[u8],
    out: &mut Output,
    begun: Run,
) -> Run
    requires { LineAsks room.old held.old window.now begun }
    ensures done { RunDone room.new held.new window.now begun result }
    ensures lent { StaysLent room.old room.new }
{
    match ending_call(begun.number, &held[..begun.count], window) {
        Some(call) => ending_line(room, held, window, out, begun, call),
        None => play_line(room, held, window, begun),
    }
}

// The lines of a window, in turn.
pub fn play_window(
    room: &mut Workspace,
    held: &mut [u8],
    window: &[u8],
    out: &mut Output,
    begun: Run,
) -> Run
    requires { LineAsks room.old held.old window.now begun }
    ensures done { RunDone room.new held.new window.now begun result }
    ensures lent { StaysLent room.old room.new }
{
    let mut run = begun;
    let mut rest = window;
    while !rest.is_empty() {
        let end = line_end(rest, 0, rest.len());
        let (line, later) = rest.split_at(end.saturating_add(1).min(rest.len()));
        run = one_line(room, held, line, out, run);
        rest = later;
    }
    run
}
