// The text that comes with a line: the bytes of write and send.
ghost use Rattle.std.specs.Prelude.{drop};
ghost use Rattle.rules.specs.Rights.{op};
ghost use Rattle.rules.specs.Script.{nth, call_of};
ghost use Rattle.script_lines.specs.Lists.{Front, BytesFrom, LineAsks};

use crate::fits::nth;
use crate::table::{TEXT, column};

// The numbers from place `from` on, as bytes.
fn copy_bytes(numbers: &[u32], from: usize, text: &mut [u8]) -> usize
    requires { BytesFrom numbers.now from text.old }
    ensures { Front (drop from numbers.now) text.new result }
{
    let mut i = from;
    let mut n = 0;
    while i < numbers.len() {
        text[n] = numbers[i] as u8;
        n += 1;
        i += 1;
    }
    n
}

// The bytes of a line that goes on with bytes, into the front of `text`, and how many they are; no other line has any.
pub fn text_of(numbers: &[u32], text: &mut [u8]) -> usize
    requires { LineAsks numbers.now text.old }
    ensures { Front (call_of (op (nth numbers.now 0)) numbers.now).text text.new result }
{
    let call = column(nth(numbers, 0));
    let from = usize::from(TEXT[call]);
    if from == 0 {
        return 0;
    }
    copy_bytes(numbers, from, text)
}
