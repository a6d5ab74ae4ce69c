// A repeat, the drive's place in it, and the take-up.
ghost use Rattle.std.specs.Prelude.{◌≡◌, true};
ghost use Rattle.product_drive.specs.Drive.{up_to, step_at, repeat_fits, Within, place_fits, fits, start, place_after};

use crate::limit::{MAX_COUNTS, MAX_PICKS, MAX_ROW};

// N picks, C motor counts, W bytes a row.
#[derive(Clone, Copy, Debug, PartialEq, Eq)]
pub struct Repeat {
    pub picks: u32,
    pub counts: u32,
    pub row: u32,
}

// The next pick, counted from 1 within the repeat, and the steps so far.
#[derive(Clone, Copy, Debug, PartialEq, Eq)]
pub struct Place {
    pub next: u32,
    pub steps: u32,
}

impl Place {
    // Where a repeat begins.
    fn start() -> Place
        ensures { result ≡ start }
    {
        Place { next: 1, steps: 0 }
    }
}

impl Repeat {
    // N, C and W are in their ranges.
    fn in_range(self) -> bool
        ensures { result ≡ repeat_fits self }
    {
        (1..=MAX_PICKS).contains(&self.picks)
            && self.counts <= MAX_COUNTS
            && (1..=MAX_ROW).contains(&self.row)
    }

    // The whole part of i × C / N. The product is below 2 to the power 40.
    fn up_to(self, i: u32) -> u32
        requires { Within self i }
        ensures { result ≡ up_to self i }
    {
        (u64::from(i) * u64::from(self.counts) / u64::from(self.picks)) as u32
    }

    // The place is one of this repeat.
    fn has(self, place: Place) -> bool
        requires { repeat_fits self ≡ true }
        ensures { result ≡ place_fits self place }
    {
        (1..=self.picks).contains(&place.next) && place.steps == self.up_to(place.next - 1)
    }

    // Repeat and place are in their ranges.
    pub(crate) fn fits(self, place: Place) -> bool
        ensures { result ≡ fits self place }
    {
        self.in_range() && self.has(place)
    }

    // The take-up step of the pick at this place.
    pub(crate) fn step_at(self, place: Place) -> u32
        requires { fits self place ≡ true }
        ensures { result ≡ step_at self place.next }
    {
        self.up_to(place.next) - place.steps
    }

    // The place after a done pick at this one.
    pub(crate) fn place_after(self, place: Place) -> Place
        requires { fits self place ≡ true }
        ensures { result ≡ place_after self place }
    {
        if place.next == self.picks {
            return Place::start();
        }
        Place {
            next: place.next + 1,
            steps: self.up_to(place.next),
        }
    }
}
