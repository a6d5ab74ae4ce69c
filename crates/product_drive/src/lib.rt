// The loom drive of 02 (CR 3), a product above the store: it uses the store only by its calls and by the window question.
#![tactic(auto)]

ghost use Rattle.std.specs.Prelude.{[]};
ghost use Rattle.layout.specs.WellFormed.{WellFormed};
ghost use Rattle.kernel_step.specs.Slices.{slices};
ghost use Rattle.product_drive.specs.Picks.{Picks};

mod access;
mod limit;
pub mod picked;
pub mod repeat;
mod row;

use access::{Access, Checked, Unchecked};
use call_steps::request::{Capability, Name};
use picked::Picked;
use repeat::{Place, Repeat};
use row::{readable, row_request};
use values::refusal::Refusal;

// A pick on a store that the access is for.
fn pick_by<A: Access>(
    bytes: &mut [u8],
    links: &mut [u16],
    words: &mut [u32],
    buffer: &mut [u8],
    caller: Name,
    x: Capability,
    repeat: Repeat,
    place: Place,
) -> Picked
    requires { A.serves bytes.old links.old words.old }
    ensures { Picks caller x repeat place result
        (slices bytes.old links.old words.old buffer.old [])
        (slices bytes.new links.new words.new buffer.new []) }
{
    if !repeat.fits(place) {
        return Picked::refused(Refusal::OutOfRange, place);
    }
    let answer = A::ask(bytes, links, words, caller, x);
    match readable(repeat, answer) {
        Ok(window) => {
            let req = row_request(caller, x, window, repeat, place);
            let r = A::call(bytes, links, words, buffer, req);
            Picked::by(repeat, place, r)
        }
        Err(refusal) => Picked::refused(refusal, place),
    }
}

// A pick on any store.
pub fn pick(
    bytes: &mut [u8],
    links: &mut [u16],
    words: &mut [u32],
    buffer: &mut [u8],
    caller: Name,
    x: Capability,
    repeat: Repeat,
    place: Place,
) -> Picked
    ensures { Picks caller x repeat place result
        (slices bytes.old links.old words.old buffer.old [])
        (slices bytes.new links.new words.new buffer.new []) }
{
    pick_by::<Checked>(bytes, links, words, buffer, caller, x, repeat, place)
}

// The same on a store that is known to be well formed: as `step` is to `call`.
pub fn pick_unchecked(
    bytes: &mut [u8],
    links: &mut [u16],
    words: &mut [u32],
    buffer: &mut [u8],
    caller: Name,
    x: Capability,
    repeat: Repeat,
    place: Place,
) -> Picked
    requires { WellFormed bytes.old links.old words.old }
    ensures { Picks caller x repeat place result
        (slices bytes.old links.old words.old buffer.old [])
        (slices bytes.new links.new words.new buffer.new []) }
{
    pick_by::<Unchecked>(bytes, links, words, buffer, caller, x, repeat, place)
}
