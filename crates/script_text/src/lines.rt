// Lines in a window of bytes.
ghost use Rattle.std.specs.Prelude.{◌≤◌, length};
ghost use Rattle.script_text.specs.Lines.{EndsLine};

use values::limit::MAX_WORD;

// "decimal numbers up to 4,294,967,295"
pub(crate) const LARGEST: u64 = MAX_WORD as u64;

// "lines of at most 2,048 bytes"
pub const LONGEST: usize = 2048;

// No line has more numbers: each has a digit, and a byte after it but for the last.
pub const NUMBERS: usize = 1024;

// The place of the first byte 10 from place `from` on, or `to` where none stands before it.
pub fn line_end(buf: &[u8], from: usize, to: usize) -> usize
    requires { (from ≤ to) × (to ≤ length buf.now) }
    ensures { EndsLine buf.now from to result }
{
    match memchr::memchr(b'\n', &buf[from..to]) {
        Some(i) => from + i,
        None => to,
    }
}
