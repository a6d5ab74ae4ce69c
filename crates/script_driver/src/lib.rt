// The driver of a script: 01, "A script and its output". It reads and writes nothing: it is handed a window of the input and room for
// output, plays the lines that end there, and says how far it came in both. What it does is fixed by what came in.
#![tactic(auto)]

ghost use Rattle.script_play.specs.Workspace.{Works, StaysLent};
ghost use Rattle.script_driver.specs.Contract.{FeedAsks, Feeding, FinishAsks, Finishing};
ghost use Rattle.script_driver.specs.Parts.{store_in, run_of, fed_of, EndAsks, EndPut};

pub mod line;

use line::{ended, hold, one_line};
use script_answers::answer::ANSWER;
use script_answers::ends::{bad_line, totals_line};
use script_play::workspace::Workspace;
use script_text::lines::line_end;

// Room for an answer and for the last line of the output.
pub const ROOM: usize = 2916;

// Where a run stands.
#[derive(Clone, Copy)]
pub struct Run {
    // The next line's number, "counted from 1" after line one; 0 before line one.
    pub number: u64,
    // Line one was bad.
    pub bad: bool,
    // So many bytes at the front of the buffer `held` belong to a line that has not ended.
    pub count: usize,
    // The place in the output after what was written.
    pub at: usize,
}

// How far a turn came: the run after it, and the bytes of the window that were taken.
#[derive(Clone, Copy)]
pub struct Fed {
    pub run: Run,
    pub taken: usize,
}

// Plays as many lines as end in the window and as there is room for, and holds what stands after the last.
pub fn feed(room: &mut Workspace, held: &mut [u8], window: &[u8], out: &mut [u8], begun: Run) -> Fed
    requires asks { FeedAsks (store_in room.old) held.old (run_of begun) window.now out.old begun.at }
    requires working { Works room.old }
    ensures feeding { Feeding (store_in room.old) held.old (run_of begun) window.now out.old begun.at
        (store_in room.new) held.new out.new (fed_of result) }
    ensures lent { StaysLent room.old room.new }
{
    let mut run = begun;
    let mut from = 0;
    while from < window.len() && out.len() - run.at >= ANSWER {
        let end = line_end(window, from, window.len());
        if end == window.len() {
            let n = hold(held, run.count, &window[from..]);
            let last = Run {
                number: run.number,
                bad: run.bad,
                count: n,
                at: run.at,
            };
            return Fed {
                run: last,
                taken: end,
            };
        }
        run = ended(room, held, &window[from..end], out, run);
        from = end + 1;
    }
    Fed { run, taken: from }
}

// "Line one .. if bad or absent, `0 2` is all it writes"; else "Last `T`" and the totals.
fn put_end(room: &Workspace, out: &mut [u8], run: Run) -> usize
    requires { EndAsks (store_in room.now) out.old run.at }
    ensures { EndPut (store_in room.now) out.old run out.new result }
{
    if run.bad || run.number == 0 {
        return bad_line(out, run.at, 0);
    }
    totals_line(room.bytes, room.links, room.words, out, run.at)
}

// The end of the input: "The last line may lack its end; nothing after a last byte 10 is no line." Then the last line of the output.
pub fn finish(room: &mut Workspace, held: &[u8], out: &mut [u8], run: Run) -> usize
    requires asks { FinishAsks (store_in room.old) held.now (run_of run) out.old run.at }
    requires working { Works room.old }
    ensures finishing { Finishing (store_in room.old) held.now (run_of run) out.old run.at
        (store_in room.new) out.new result }
    ensures lent { StaysLent room.old room.new }
{
    if run.count == 0 {
        return put_end(room, out, run);
    }
    let last = one_line(room, &held[..run.count], out, run);
    put_end(room, out, last)
}
