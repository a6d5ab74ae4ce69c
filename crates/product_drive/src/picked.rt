// What a pick hands back.
ghost use Rattle.std.specs.Prelude.{◌≡◌, true};
ghost use Rattle.values.specs.Refusals.{number_of};
ghost use Rattle.product_drive.specs.Drive.{fits};
ghost use Rattle.product_drive.specs.Picks.{refused_pick, picked_by};

use crate::repeat::{Place, Repeat};
use call_steps::request::Reply;
use values::refusal::{DONE, Refusal};

// 0 or the refusal; the take-up step; the place for the next pick; how many bytes were read to the buffer's front.
// kept: the code as a number beside the others, since `picks-add-up` speaks of the place that a refusal hands back, too
#[derive(Clone, Copy, Debug, PartialEq, Eq)]
pub struct Picked {
    pub code: u32,
    pub step: u32,
    pub place: Place,
    pub count: u32,
}

impl Picked {
    // A refusal hands back the place that it was given.
    pub(crate) fn refused(refusal: Refusal, place: Place) -> Picked
        ensures { result ≡ refused_pick (number_of refusal) place }
    {
        Picked {
            code: u32::from(refusal),
            step: 0,
            place,
            count: 0,
        }
    }

    // The pick at this place, by the reply to its read.
    pub(crate) fn by(repeat: Repeat, place: Place, r: Reply) -> Picked
        requires { fits repeat place ≡ true }
        ensures { result ≡ picked_by repeat place r }
    {
        match r {
            Ok(given) => Picked {
                code: DONE,
                step: repeat.step_at(place),
                place: repeat.place_after(place),
                count: given.count,
            },
            Err(refusal) => Picked::refused(refusal, place),
        }
    }
}
