// Whether a line has the numbers that its call asks.
ghost use Rattle.std.specs.Prelude.{◌≤◌, ◌≡◌, ◌&&◌, leb, length, drop};
ghost use Rattle.rules.specs.Rights.{op};
ghost use Rattle.rules.specs.Script.{are_bytes, is_call, line_fits, nth};
ghost use Rattle.script_lines.specs.Lacking.{lacking};

use crate::table::{LAST_DAY, LENGTH, TEXT, column};
use values::limit::MAX_BYTE;
use values::number::DAY;

// The numbers from place `from` on are 0 to 255.
fn are_bytes(numbers: &[u32], from: usize) -> bool
    ensures { result ≡ are_bytes (drop from numbers.now) }
{
    let mut i = from;
    while i < numbers.len() {
        if numbers[i] > MAX_BYTE {
            return false;
        }
        i += 1;
    }
    true
}

// So many numbers or more, and bytes after those.
fn ends_in_bytes(numbers: &[u32], from: usize) -> bool
    ensures { result ≡ (leb from (length numbers.now) && are_bytes (drop from numbers.now)) }
{
    from <= numbers.len() && are_bytes(numbers, from)
}

// The i-th number, counted from 0, and 0 past the last.
pub(crate) fn nth(numbers: &[u32], i: usize) -> u32
    ensures { result ≡ nth numbers.now i }
{
    numbers.get(i).copied().unwrap_or(0)
}

// How many numbers a line with a place for a last day has less than its fields, where that is 1 or 2.
pub(crate) fn lacking(numbers: &[u32], call: usize) -> u8
    requires { call ≤ 16 }
    ensures { result ≡ lacking (op call) numbers.now }
{
    let place = LAST_DAY[call];
    if place == 0 {
        return 0;
    }
    let fields = usize::from(LENGTH[call]);
    if numbers.len() + 1 == fields {
        return 1;
    }
    if numbers.len() + 2 == fields {
        return 2;
    }
    0
}

// Calls are 1 to 17.
fn is_call(number: u32) -> bool
    ensures { result ≡ is_call number }
{
    (1..=DAY).contains(&number)
}

// A line of a call has as many numbers as the call asks, but for those that it may lack, and bytes where it asks them.
pub fn line_fits(numbers: &[u32]) -> bool
    ensures { result ≡ line_fits (op (nth numbers.now 0)) numbers.now }
{
    let number = nth(numbers, 0);
    if !is_call(number) {
        return false;
    }
    let call = column(number);
    let text = usize::from(TEXT[call]);
    if text == 0 {
        return numbers.len() + usize::from(lacking(numbers, call)) == usize::from(LENGTH[call]);
    }
    ends_in_bytes(numbers, text)
}
