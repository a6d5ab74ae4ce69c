// A line of numbers is read: sound and complete, for any bytes.
ghost use Rattle.std.specs.Prelude.{◌≤◌, ◌≡◌, ◌≢◌, length};
ghost use Rattle.rules.specs.Limit as Limit;
ghost use Rattle.script_text.specs.Lines.{most_numbers};
ghost use Rattle.script_text.specs.Scan.{NoDigit, Near, ScanOnIs, NumberAt, ReadIs, LineIs};
ghost use Rattle.script_text.specs.Scan.{extends as Scan·extends};

use crate::lines::{LARGEST, LONGEST};

// A number, and the place after it.
#[derive(Clone, Copy)]
struct Number {
    pub value: u32,
    pub end: usize,
}

// Byte b goes on with a number whose digits so far say `value`, which is not 0.
fn extends(value: u64, b: u8) -> bool
    requires { (value ≢ 0) × (value ≤ Limit.word) }
    ensures { result ≡ Scan·extends value b }
{
    b.is_ascii_digit() && value * 10 + (b - b'0') as u64 <= LARGEST
}

// What goes on from place `at`, after digits that say `first`, which is not 0.
fn digits_on(line: &[u8], at: usize, first: u64) -> Option<Number>
    requires place { at ≤ length line.now }
    requires first { (first ≢ 0) × (first ≤ Limit.word) }
    ensures { ScanOnIs line.now at first result }
{
    let mut value = first;
    for i in at..line.len() {
        let b = line[i];
        if extends(value, b) {
            value = value * 10 + (b - b'0') as u64;
        } else if b == b' ' {
            return Some(Number {
                value: value as u32,
                end: i,
            });
        } else {
            return None;
        }
    }
    Some(Number {
        value: value as u32,
        end: line.len(),
    })
}

// What goes on from place `at`, after a first digit 0: "no leading zeros".
fn zero_on(line: &[u8], at: usize) -> Option<Number>
    requires { at ≤ length line.now }
    ensures { ScanOnIs line.now at 0 result }
{
    if at < line.len() && line[at] != b' ' {
        return None;
    }
    Some(Number { value: 0, end: at })
}

// The number at place `at`: its digits, to a space or the line's end.
fn number_at(line: &[u8], at: usize) -> Option<Number>
    ensures { NumberAt line.now at result }
{
    if at < line.len() {
        let b = line[at];
        if b == b'0' {
            return zero_on(line, at + 1);
        }
        if b.is_ascii_digit() {
            return digits_on(line, at + 1, (b - b'0') as u64);
        }
    }
    None
}

// What goes on from place `end`, where no digit stands, after digits that say `value`, which is not 0.
fn no_digit_on(line: &[u8], end: usize, value: u64) -> Option<Number>
    requires { NoDigit line.now end value }
    ensures { ScanOnIs line.now end value result }
{
    if line[end] == b' ' {
        return Some(Number {
            value: value as u32,
            end,
        });
    }
    None
}

// What goes on from place `at`, after a first digit that is not 0. Three bytes follow: two digits of them need no test of
// the line's end, and make no number that is too large.
fn near_on(line: &[u8], at: usize, first: u64) -> Option<Number>
    requires { Near line.now at first }
    ensures { ScanOnIs line.now at first result }
{
    let b = line[at];
    if b.is_ascii_digit() {
        let second = first * 10 + (b - b'0') as u64;
        let c = line[at + 1];
        if c.is_ascii_digit() {
            let third = second * 10 + (c - b'0') as u64;
            if line[at + 2] == b' ' {
                return Some(Number {
                    value: third as u32,
                    end: at + 2,
                });
            }
            return digits_on(line, at + 2, third);
        }
        return no_digit_on(line, at + 1, second);
    }
    no_digit_on(line, at, first)
}

// The number at place `at`, by the short way where the line's end is not near.
fn next_at(line: &[u8], at: usize) -> Option<Number>
    requires { at ≤ length line.now }
    ensures { NumberAt line.now at result }
{
    if at + 4 <= line.len() {
        let b = line[at];
        if b'1' <= b && b <= b'9' {
            return near_on(line, at + 1, (b - b'0') as u64);
        }
    }
    number_at(line, at)
}

// The numbers of a line, into the front of `out`, and how many they are.
fn read_numbers(line: &[u8], out: &mut [u32]) -> Option<usize>
    ensures { ReadIs line.now out.old out.new result }
{
    let mut at = 0;
    for count in 0..out.len() {
        let n = next_at(line, at)?;
        out[count] = n.value;
        if n.end == line.len() {
            return Some(count + 1);
        }
        at = n.end + 1;
    }
    None
}

// The numbers that a line has, into the front of `out`, and how many they are. A bad line has none, as the rules have it: each
// caller goes on with no numbers, which no call has and line one neither.
// kept: 0 for a bad line in place of an Option, since `play_line` and `start` would turn its None into no numbers at once
pub fn read_line(line: &[u8], out: &mut [u32]) -> usize
    requires { most_numbers ≤ length out.old }
    ensures { LineIs line.now out.old out.new result }
{
    if line.len() > LONGEST {
        return 0;
    }
    read_numbers(line, out).unwrap_or(0)
}
