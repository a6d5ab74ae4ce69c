// An object out of the chain of objects.
ghost use Rattle.std.specs.Prelude.{◌≡◌, ◌≢◌, ◌<◌, ℕ, get_or, length};
ghost use Rattle.call_ending.specs.Links.{before, unlinked, ObjectAsks};

use crate::blocks::instead;
use layout::{NEXT_OBJECT, OBJECTS};
use values::limit::MAX_OBJECTS;

// The last place of a link in a row, 0 if it stands nowhere behind the first.
fn last_place(row: &[u16], o: usize) -> usize
    requires { 0 < length row.now }
    ensures in_row { result < length row.now }
    ensures stands { result ≢ 0 → get_or row.now result 0 ≡ o }
    ensures nowhere_behind { (j : ℕ) → result < j → j < length row.now → get_or row.now j 0 ≢ o }
{
    row.iter()
        .rposition(|next| usize::from(*next) == o)
        .unwrap_or(0)
}

// The slot of the object before that in slot o, 0 if it is the first.
// kept: 0 in place of an Option in before, since unlink stores to the row's cell 0 then, which is no object's
fn before(links: &[u16], o: usize) -> usize
    requires { ObjectAsks links.now o }
    ensures { result ≡ before links.now o }
{
    last_place(&links[NEXT_OBJECT..=NEXT_OBJECT + MAX_OBJECTS], o)
}

// The one before it, or the head, is linked to the one after it.
#[tactic(auto, using(crate::proofs::Walking::before_high))]
pub(crate) fn unlink(links: &mut [u16], o: usize)
    requires { ObjectAsks links.old o }
    ensures { links.new ≡ unlinked links.old o }
{
    let next = links[NEXT_OBJECT + o];
    // kept: `as` in unlink, where TryFrom would be a failure that ObjectAsks rules out
    let head = instead(links[OBJECTS], o as u16, next);
    let i = before(links, o);
    links[NEXT_OBJECT + i] = next;
    links[OBJECTS] = head;
}
