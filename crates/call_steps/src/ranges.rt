// Refusal 2: an unknown call, or an argument out of range. Each function is the rules' definition of its name.
ghost use Rattle.std.specs.Prelude.{◌≡◌, not, ◌&&◌, ◌||◌, List, ℕ, ◌-◌, leb, eqb, length};
ghost use Rattle.rules.specs.Limit;
ghost use Rattle.rules.specs.Rights.{op, presents};
ghost use Rattle.rules.specs.Refusals.{name_fits, ordered, transfer_fits, arguments_fit, in_range};
ghost use Rattle.values.specs.Words.{window_of};
ghost use Rattle.call_steps.specs.Request.{name_of, call_of};

use crate::request::{Name, Request};
use values::limit::{
    MAX_DAY, MAX_MESSAGE, MAX_RIGHTS, MAX_SERIAL, MAX_SIZE, MAX_TRANSFER, MAX_VOLUME, MIN_BUFFER,
    MIN_SCRATCH, TOP,
};
use values::rights::Rights;
use values::window::Window;

// Volumes are 0 to 3, serials 0 to 65,535.
pub fn name_fits(name: Name) -> bool
    ensures { result ≡ name_fits (name_of name) }
{
    name.volume <= MAX_VOLUME && name.serial <= MAX_SERIAL
}

// A read or write of at most 256 bytes.
fn transfer_fits(range: Window) -> bool
    ensures { result ≡ transfer_fits (window_of range) }
{
    range.start <= range.end && range.end - range.start <= MAX_TRANSFER
}

// make_obj's arguments.
fn make_fits(name: Name, size: u32, flag: u32, rights: u32) -> bool
    ensures { result ≡ (name_fits (name_of name) && leb size Limit.size && leb flag 1 && leb rights Limit.rights) }
{
    name_fits(name) && size <= MAX_SIZE && flag <= 1 && rights <= MAX_RIGHTS
}

// read's.
fn read_fits(range: Window, buffer: usize) -> bool
    ensures { result ≡ (transfer_fits (window_of range) && leb Limit.buffer buffer) }
{
    transfer_fits(range) && buffer >= MIN_BUFFER
}

// write's: as many bytes come as the range holds.
fn write_fits(range: Window, text: usize) -> bool
    ensures { result ≡ (transfer_fits (window_of range) && eqb text (range.end - range.start)) }
{
    transfer_fits(range) && text == (range.end - range.start) as usize
}

// derive_cap's.
pub fn derive_fits(rights: u32, range: Window, last_day: u32) -> bool
    ensures { result ≡ (leb rights Limit.rights && ordered (window_of range) && leb last_day Limit.day) }
{
    rights <= MAX_RIGHTS && range.start <= range.end && last_day <= MAX_DAY
}

// The ranges of a call's own arguments, in call order.
fn arguments_fit(req: Request, text: usize, buffer: usize, scratch: usize) -> bool
    ensures { (d : List ℕ) → length d ≡ text
        → result ≡ arguments_fit (op req.number) (call_of req d buffer scratch) }
{
    // kept: 01 has "a decision over call numbers 1 to 16" here, and no enum of calls
    match req.number {
        1 => make_fits(req.name, req.size, req.flag, req.rights),
        2 => read_fits(req.range, buffer),
        3 => write_fits(req.range, text),
        4 => true,
        5 => derive_fits(req.rights, req.range, req.last_day),
        6 => scratch >= MIN_SCRATCH,
        7 => scratch >= MIN_SCRATCH,
        8 => true,
        9 => true,
        10 => true,
        11 => true,
        12 => req.lock[0] < TOP,
        13 => text <= MAX_MESSAGE,
        14 => buffer >= MIN_BUFFER,
        15 => true,
        16 => true,
        _ => false,
    }
}

// A call presents a capability where it asks a right of one.
pub fn presents(number: u32) -> bool
    ensures { result ≡ presents (op number) }
{
    Rights::asked(number).0 != 0
}

// The name presented fits, where one is presented.
fn presented_fits(number: u32, name: Name) -> bool
    ensures { result ≡ (not (presents (op number)) || name_fits (name_of name)) }
{
    !presents(number) || name_fits(name)
}

// The caller's name, the name presented where one is, and the call's own arguments; `text`, `buffer` and `scratch` are
// the lengths of the lent slices.
pub fn in_range(req: Request, text: usize, buffer: usize, scratch: usize) -> bool
    ensures { (d : List ℕ) → length d ≡ text → result ≡ in_range (call_of req d buffer scratch) }
{
    name_fits(req.caller)
        && presented_fits(req.number, req.presented.name)
        && arguments_fit(req, text, buffer, scratch)
}
