// Numbers and lines are written into a slice, from a place on; the rest of the slice is as it was. Each function answers
// the place after what it wrote.
ghost use Rattle.std.specs.Prelude.{◌+◌, ◌*◌, ◌≤◌, ◌<◌, ◌≡◌, [], ◌∷◌, length};
ghost use Rattle.script_text.specs.Numeral.{numeral, after, line_of};
ghost use Rattle.script_text.specs.Pasted.{Wrote, Put};

pub fn put_byte(out: &mut [u8], at: usize, b: u8) -> usize
    requires { at < length out.old }
    ensures { Wrote out.old at (b ∷ []) out.new result }
{
    out[at] = b;
    at + 1
}

// How many digits n has.
fn digits_in(n: u64) -> usize
    ensures { result ≡ length (numeral n) }
{
    if n < 10 {
        return 1;
    }
    if n < 100 {
        return 2;
    }
    if n < 1000 {
        return 3;
    }
    let mut k = 1;
    let mut rest = n;
    while rest >= 10 {
        rest /= 10;
        k += 1;
    }
    k
}

// The digits of n, from the last back.
pub fn put_digits(out: &mut [u8], at: usize, n: u64) -> usize
    requires { at + length (numeral n) ≤ length out.old }
    ensures { Wrote out.old at (numeral n) out.new result }
{
    let end = at + digits_in(n);
    let mut i = end;
    let mut rest = n;
    while rest >= 10 {
        i -= 1;
        out[i] = 48 + (rest % 10) as u8;
        rest /= 10;
    }
    out[at] = 48 + rest as u8;
    end
}

// The same of a number of 32 bits, whose digits are ten at most.
pub fn put_number(out: &mut [u8], at: usize, n: u32) -> usize
    requires { at + 10 ≤ length out.old }
    ensures { Put 10 out.old at (numeral n) out.new result }
{
    put_digits(out, at, n as u64)
}

// Each number with a space before it.
pub fn put_after(out: &mut [u8], at: usize, numbers: &[u32]) -> usize
    requires { at + 11 * length numbers.now ≤ length out.old }
    ensures { Put (11 * length numbers.now) out.old at (after numbers.now) out.new result }
{
    let mut p = at;
    for number in numbers {
        let q = put_byte(out, p, b' ');
        p = put_number(out, q, *number);
    }
    p
}

// A line of numbers, and its end. The first may be a line's own number, whose digits are twenty at most.
pub fn put_line(out: &mut [u8], at: usize, first: u64, others: &[u32]) -> usize
    requires { at + (21 + 11 * length others.now) ≤ length out.old }
    ensures { Put (21 + 11 * length others.now) out.old at (line_of (first ∷ others.now)) out.new result }
{
    let p = put_digits(out, at, first);
    let q = put_after(out, p, others);
    put_byte(out, q, b'\n')
}
