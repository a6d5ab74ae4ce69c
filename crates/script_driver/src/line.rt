// A line of a script: what is held of it until it has ended, and how it is played.
ghost use Rattle.script_play.specs.Workspace.{Works, StaysLent};
ghost use Rattle.script_driver.specs.Parts.{store_in, HoldAsks, Holds, FirstAsks, FirstLine, LineAsks, OneLine, EndedAsks, EndedLine};

use crate::Run;
use script_play::line::play_line;
use script_play::start::start;
use script_play::workspace::Workspace;
use script_text::lines::LONGEST;

// Of a line that has not ended so many bytes are held at most: one more than a line may have.
pub const HELD: usize = LONGEST + 1;

// More bytes of a line that has not ended.
pub(crate) fn hold(held: &mut [u8], count: usize, part: &[u8]) -> usize
    requires { HoldAsks held.old count }
    ensures { Holds held.old count part.now held.new result }
{
    let n = (HELD - count).min(part.len());
    held[count..count + n].copy_from_slice(&part[..n]);
    count + n
}

// Line one, without its end.
fn first_line(room: &mut Workspace, line: &[u8], at: usize) -> Run
    requires { FirstAsks (store_in room.old) room.old.numbers.now }
    ensures line { FirstLine line.now at (store_in room.new) result }
    ensures lent { StaysLent room.old room.new }
{
    if start(room, line) {
        return Run {
            number: 1,
            bad: false,
            count: 0,
            at,
        };
    }
    Run {
        number: 0,
        bad: true,
        count: 0,
        at,
    }
}

// A line, without its end, at which the run stands. After a bad line one no line is played.
pub(crate) fn one_line(room: &mut Workspace, line: &[u8], out: &mut [u8], run: Run) -> Run
    requires asks { LineAsks (store_in room.old) out.old run.at run.number }
    requires working { Works room.old }
    ensures line { OneLine (store_in room.old) line.now out.old run.at run.number run.bad
        (store_in room.new) out.new result }
    ensures lent { StaysLent room.old room.new }
{
    if run.bad {
        return Run {
            number: run.number,
            bad: true,
            count: 0,
            at: run.at,
        };
    }
    if run.number == 0 {
        return first_line(room, line, run.at);
    }
    let p = play_line(room, line, run.number, out, run.at);
    Run {
        number: run.number + 1,
        bad: false,
        count: 0,
        at: p,
    }
}

// A line that has ended, of which some bytes are held and `part` is the rest: where none is held it lies whole there, and is not copied.
pub(crate) fn ended(
    room: &mut Workspace,
    held: &mut [u8],
    part: &[u8],
    out: &mut [u8],
    run: Run,
) -> Run
    requires asks { EndedAsks (store_in room.old) held.old out.old run }
    requires working { Works room.old }
    ensures line { EndedLine (store_in room.old) held.old part.now out.old run
        (store_in room.new) held.new out.new result }
    ensures lent { StaysLent room.old room.new }
{
    if run.count == 0 {
        return one_line(room, part, out, run);
    }
    let n = hold(held, run.count, part);
    one_line(room, &held[..n], out, run)
}
