// An answer as a line: "its number .., 0 or the refusal, then results".
ghost use Rattle.std.specs.Prelude.{◌+◌, ◌*◌, ◌≤◌, ◌≡◌, [], ◌∷◌, length, take, Ok};
ghost use Rattle.rules.specs.Rights.{op};
ghost use Rattle.rules.specs.Script.{written, results};
ghost use Rattle.rules.specs.Script.{answer_of as script_answer_of};
ghost use Rattle.call_steps.specs.Request.{capability_of, answer_of, count_of};
ghost use Rattle.script_text.specs.Numeral.{line_of};
ghost use Rattle.script_text.specs.Pasted.{Put};
ghost use Rattle.script_answers.specs.Room.{ANSWER as Room-as-ANSWER};
ghost use Rattle.script_answers.specs.Pushed.{Pushed, BytesCounted};

use call_steps::request::{Capability, Given, Reply};
use script_text::write::{put_byte, put_digits, put_number};
use values::refusal::DONE;

// Room for any answer, in bytes.
pub const ANSWER: usize = 2870;

// A number, with a space before it.
fn push(out: &mut [u8], at: usize, v: u32) -> usize
    requires { at + 11 ≤ length out.old }
    ensures { Pushed 11 out.old at (v ∷ []) out.new result }
{
    let p = put_byte(out, at, 32);
    put_number(out, p, v)
}

fn push_bytes(out: &mut [u8], at: usize, bytes: &[u8], count: usize) -> usize
    requires { (count ≤ length bytes.now) × (at + 11 * count ≤ length out.old) }
    ensures { Pushed (11 * count) out.old at (take count bytes.now) out.new result }
{
    let mut p = at;
    for byte in &bytes[..count] {
        p = push(out, p, u32::from(*byte));
    }
    p
}

fn push_two(out: &mut [u8], at: usize, a: u32, b: u32) -> usize
    requires { at + 22 ≤ length out.old }
    ensures { Pushed 22 out.old at (a ∷ b ∷ []) out.new result }
{
    let p = push(out, at, a);
    push(out, p, b)
}

// "a new capability": volume, serial, p1, p2.
fn push_capability(out: &mut [u8], at: usize, x: Capability) -> usize
    requires { at + 44 ≤ length out.old }
    ensures { Pushed 44 out.old at (written (capability_of x)) out.new result }
{
    let name = x.name;
    let password = x.password;
    let p = push_two(out, at, name.volume, name.serial);
    push_two(out, p, password[0], password[1])
}

// "sum and bytes".
fn push_message(out: &mut [u8], at: usize, sum: u32, bytes: &[u8], count: usize) -> usize
    requires { (count ≤ length bytes.now) × (at + 11 + 11 * count ≤ length out.old) }
    ensures { Pushed (11 + 11 * count) out.old at (sum ∷ take count bytes.now) out.new result }
{
    let p = push(out, at, sum);
    push_bytes(out, p, bytes, count)
}

// What a call that is done gives.
fn push_results(out: &mut [u8], at: usize, number: u32, given: Given, buffer: &[u8]) -> usize
    requires counted { BytesCounted buffer.now given.count }
    requires room { at + 2827 ≤ length out.old }
    ensures { Pushed 2827 out.old at
        (results (op number) (answer_of (Ok given) (take given.count buffer.now))) out.new result }
{
    let count = given.count as usize;
    let x = given.capability;
    match number {
        1 => push_capability(out, at, x),
        2 => push_bytes(out, at, buffer, count),
        4 => push_two(out, at, given.length, given.moneyword),
        5 => push_capability(out, at, x),
        7 => push_capability(out, at, x),
        14 => push_message(out, at, given.sum, buffer, count),
        _ => at,
    }
}

// 0 and the results, or the refusal: at most 258 numbers.
fn push_answer(out: &mut [u8], at: usize, number: u32, reply: Reply, buffer: &[u8]) -> usize
    requires counted { BytesCounted buffer.now (count_of reply) }
    requires room { at + 2838 ≤ length out.old }
    ensures { Pushed 2838 out.old at
        (script_answer_of (op number) (answer_of reply (take (count_of reply) buffer.now)))
        out.new result }
{
    match reply {
        Ok(given) => {
            let p = push(out, at, DONE);
            push_results(out, p, number, given, buffer)
        }
        Err(refusal) => push(out, at, u32::from(refusal)),
    }
}

// The answer to line `line`, `number` being its call's: the line's number, the others, and the line's end.
pub fn answer_line(
    out: &mut [u8],
    at: usize,
    line: u64,
    number: u32,
    reply: Reply,
    buffer: &[u8],
) -> usize
    requires counted { BytesCounted buffer.now (count_of reply) }
    requires room { at + Room-as-ANSWER ≤ length out.old }
    ensures { Put Room-as-ANSWER out.old at
        (line_of (line ∷ script_answer_of (op number)
        (answer_of reply (take (count_of reply) buffer.now))))
        out.new result }
{
    let p = put_digits(out, at, line);
    let q = push_answer(out, p, number, reply, buffer);
    put_byte(out, q, 10)
}
