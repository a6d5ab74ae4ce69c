// The acceptance sheet: a script on standard input is run on the store, and what became of the capabilities is drawn as
// text for a person: what each done delete or rename ended, then each object with its tree.
#![tactic(auto)]

ghost use Rattle.std.specs.Prelude.{◌≤◌, length};
ghost use Rattle.sheet.specs.Runs.{Begins};

mod lines;
mod output;

use kernel_fresh::fresh;
use layout::{BYTES, LINKS, WORDS};
use lines::{drawn, play_window};
use output::Output;
use script_driver::Run;
use script_driver::line::HELD;
use script_play::workspace::Workspace;
use script_text::lines::NUMBERS;
use sheet_draw::draw::Objects;
use sheet_draw::store::Store;
use std::fmt::{self, Write};
use std::io::{Read, Stdin};
use values::limit::{MIN_BUFFER, MIN_SCRATCH};

// So many turns, of 65,536 bytes at most, that no run uses them up, and that their lines can be counted in 64 bits.
const TURNS: u64 = 140737488355328;

// "The last line may lack its end": where nothing came, and a part of a line is held, it is given one. Answers how many
// bytes there are to play.
fn give_end(input: &mut [u8], came: usize, count: usize) -> usize
    requires { came ≤ length input.old }
    ensures { result ≤ length input.new }
{
    if came == 0 && 0 < count && 0 < input.len() {
        input[0] = 10;
        return 1;
    }
    came
}

// Reads and plays, turn after turn, until nothing comes; nothing says that the input ends, so the turns are counted.
fn play_all(
    room: &mut Workspace,
    held: &mut [u8],
    mut stdin: Stdin,
    input: &mut [u8],
    out: &mut Output,
) -> Run
    requires { Begins room.old held.old input.old }
{
    let mut run = Run {
        number: 0,
        bad: false,
        count: 0,
        at: 0,
    };
    for _turn in 0..TURNS {
        let came = stdin.read(input).unwrap_or(0);
        let n = give_end(input, came, run.count);
        run = play_window(room, held, &input[..n], out, run);
        if came == 0 {
            break;
        }
    }
    run
}

// "Line one .. if bad or absent, `0 2` is all it writes"; else the objects.
fn put_end(store: Store<'_>, out: &mut Output, run: Run) -> fmt::Result {
    if run.number == 0 {
        return writeln!(out, "0 2");
    }
    let objects = Objects(store);
    write!(out, "{objects}")
}

fn main(rt: HostRuntime) {
    let mut bytes = [0u8; BYTES];
    let mut links = [0u16; LINKS];
    let mut words = [0u32; WORDS];
    let mut numbers = [0u32; NUMBERS];
    let mut text = [0u8; NUMBERS];
    let mut buffer = [0u8; MIN_BUFFER];
    let mut scratch = [0u16; MIN_SCRATCH];
    let mut held = [0u8; HELD];
    let mut input = [0u8; 65536];
    let mut out = Output::new(rt.stdout());
    // a store with no money, until line one says what it holds
    let _ = fresh(0, [0, 0], &mut bytes, &mut links, &mut words);
    let mut room = Workspace {
        bytes: &mut bytes,
        links: &mut links,
        words: &mut words,
        numbers: &mut numbers,
        text: &mut text,
        buffer: &mut buffer,
        scratch: &mut scratch,
    };
    let last = play_all(&mut room, &mut held, rt.stdin(), &mut input, &mut out);
    // the output takes all text
    let _ = put_end(drawn(&room), &mut out, last);
    out.write_out();
}
