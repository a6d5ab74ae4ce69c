// The script program: a script on standard input, its output on standard output. 01, "A script and its output".
// Here are the buffers, the reading and the writing; what becomes of what is read is `script_driver`'s.
#![tactic(auto)]

ghost use Rattle.script_driver.specs.Stores.{Formed};
ghost use Rattle.script_driver.specs.Parts.{store_in};
ghost use Rattle.hall.specs.Runs.{Placed, MadeRoom, Stands, FeedsAll, FedIf, TurnedIf, Begins};

use kernel_fresh::fresh;
use layout::{BYTES, LINKS, WORDS};
use script_driver::line::HELD;
use script_driver::{ROOM, Run, feed, finish};
use script_play::workspace::Workspace;
use script_text::lines::NUMBERS;
use std::io::{Read, Stdin, Stdout, Write};
use values::limit::{MIN_BUFFER, MIN_SCRATCH};

// The size of the input and of the output buffer.
const BUFFER: usize = 65536;

// So many turns, of a buffer of bytes at most, that no run uses them up, and that their lines can be counted in 64 bits.
const TURNS: u64 = 140737488355328;

// Writes out what the buffer holds, where an answer and the end may not fit after it. A failed write ends the run.
fn make_room(mut stdout: Stdout, out: &[u8], run: Run) -> Option<Run>
    requires { Placed out.now run }
    ensures { MadeRoom out.now run result }
{
    if run.at + ROOM <= out.len() {
        return Some(run);
    }
    if stdout.write_all(&out[..run.at]).is_err() {
        return None;
    }
    Some(Run { at: 0, ..run })
}

// Feeds the driver what was read, and writes where there is no room. The run after it, unless a write failed.
fn feed_all(
    room: &mut Workspace,
    held: &mut [u8],
    window: &[u8],
    stdout: Stdout,
    out: &mut [u8],
    begun: Run,
) -> Option<Run>
    requires { FeedsAll room.old held.old window.now out.old begun }
    ensures { FedIf (store_in room.old) held.old out.old room.new held.new window.now out.new begun result }
{
    let mut run = begun;
    let mut from = 0;
    while from < window.len() {
        let ready = make_room(stdout, out, run)?;
        let fed = feed(room, held, &window[from..], out, ready);
        run = fed.run;
        from += fed.taken;
    }
    Some(run)
}

// The end of the input: the last lines are written, unless a write failed.
fn end(room: &mut Workspace, held: &[u8], mut stdout: Stdout, out: &mut [u8], run: Run)
    requires { Stands room.old held.now out.old run }
    ensures { Formed (store_in room.new) }
{
    if let Some(ready) = make_room(stdout, out, run) {
        let at = finish(room, held, out, ready);
        let _ = stdout.write_all(&out[..at]);
    }
}

// Reads once, and feeds what came. At the end of the input, where a read fails and where a write fails no run goes on.
fn turn(
    room: &mut Workspace,
    held: &mut [u8],
    mut stdin: Stdin,
    input: &mut [u8],
    stdout: Stdout,
    out: &mut [u8],
    run: Run,
) -> Option<Run>
    requires { FeedsAll room.old held.old input.old out.old run }
    ensures { TurnedIf (store_in room.old) held.old out.old room.new held.new input.old input.new out.new run result }
{
    let n = stdin.read(input).unwrap_or(0);
    if n == 0 {
        end(room, held, stdout, out, run);
        return None;
    }
    feed_all(room, held, &input[..n], stdout, out, run)
}

// Turn after turn; nothing says that the input ends, so the turns are counted.
fn play_all(
    room: &mut Workspace,
    held: &mut [u8],
    stdin: Stdin,
    input: &mut [u8],
    stdout: Stdout,
    out: &mut [u8],
)
    requires { Begins room.old held.old input.old out.old }
{
    let mut run = Run {
        number: 0,
        bad: false,
        count: 0,
        at: 0,
    };
    for _ in 0..TURNS {
        match turn(room, held, stdin, input, stdout, out, run) {
            Some(next) => run = next,
            None => return,
        }
    }
}

fn main(rt: HostRuntime) {
    let mut bytes = [0u8; BYTES];
    let mut links = [0u16; LINKS];
    let mut words = [0u32; WORDS];
    let mut numbers = [0u32; NUMBERS];
    let mut text = [0u8; NUMBERS];
    let mut buffer = [0u8; MIN_BUFFER];
    let mut scratch = [0u16; MIN_SCRATCH];
    let mut held = [0u8; HELD];
    let mut input = [0u8; BUFFER];
    let mut out = [0u8; BUFFER];
    // a store with no money, until line one says what it holds; slices of these sizes are not refused
    let _ = fresh(0, [0, 0], &mut bytes, &mut links, &mut words);
    let mut room = Workspace {
        bytes: &mut bytes,
        links: &mut links,
        words: &mut words,
        numbers: &mut numbers,
        text: &mut text,
        buffer: &mut buffer,
        scratch: &mut scratch,
    };
    play_all(
        &mut room,
        &mut held,
        rt.stdin(),
        &mut input,
        rt.stdout(),
        &mut out,
    );
}
