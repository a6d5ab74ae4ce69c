// Slots with a p1 or a serial, looked up in groups: a group is taken slot by slot only where one of it has the number.
ghost use Rattle.std.specs.Prelude.{◌≡◌, ◌≤◌, length, drop, false};
ghost use Rattle.std.specs.List.{list_any};
ghost use Rattle.rules.specs.Limit as Limit;
ghost use Rattle.rules.specs.Slots.{find};
ghost use Rattle.layout.specs.Layout;
ghost use Rattle.call_steps.specs.Tests.{cell_is, SameFrom, slot_found};

use layout::{P1, SERIAL};
use values::limit::MAX_OBJECTS;

// The cells of a group.
const GROUP: usize = 16;

// Some cell is x. The loop leaves only at its end, so that the compiler can take many cells at once.
fn any_is<T: Copy + PartialEq>(cells: &[T], x: T) -> bool
    ensures { result ≡ list_any (λ y. T.eq y x) cells.now }
{
    let mut any = false;
    for cell in cells {
        any |= *cell == x;
    }
    any
}

// How many cells are left when the groups at the end, of which no cell is x, are passed over.
fn skip_groups<T: Copy + PartialEq>(cells: &[T], x: T) -> usize
    ensures low { result ≤ length cells.now }
    ensures passed { list_any (λ y. T.eq y x) (drop result cells.now) ≡ false }
{
    let mut left = cells.len();
    while GROUP <= left {
        if any_is(&cells[left - GROUP..left], x) {
            return left;
        }
        left -= GROUP;
    }
    left
}

// The last slot of 1 to n with this p1.
pub(crate) fn last_p1(words: &[u32], n: usize, p1: u32) -> Option<usize>
    requires fact_1 { length words.now ≡ Layout.WORDS }
    requires fact_2 { n ≤ Limit.caps }
    ensures { result ≡ slot_found (find n (cell_is Layout.P1 words.now p1)) }
{
    let last = skip_groups(&words[P1 + 1..P1 + 1 + n], p1);
    // kept: with `rposition` and `?` the goal `returns-in_err-at` of `last_p1` did not close, that where none is found no cell is p1
    for i in (1..last + 1).rev() {
        if words[P1 + i] == p1 {
            return Some(i);
        }
    }
    None
}

// An object slot from which the same is found as from the last, of a serial that may be too large for a link.
pub(crate) fn from_serial(links: &[u16], serial: u32) -> usize
    requires { length links.now ≡ Layout.LINKS }
    ensures { SameFrom (cell_is Layout.SERIAL links.now serial) Limit.objects result }
{
    match u16::try_from(serial) {
        Ok(serial) => skip_groups(&links[SERIAL + 1..SERIAL + 1 + MAX_OBJECTS], serial),
        Err(_) => MAX_OBJECTS,
    }
}
