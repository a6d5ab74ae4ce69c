// A walk through an object's tree: a capability, then what lies below it, then what stands beside it.
ghost use Rattle.std.specs.Iterator.{at_most};

use crate::store::Store;

// Each of at most 512 capabilities is met once, and come back to once at most.
const STEPS: u32 = 2048;

// Where a walk stands.
#[derive(Clone, Copy)]
pub struct Place {
    pub cap: usize,
    pub depth: u16,
    // It is met for the first time, and not on the way back to its parent.
    pub met: bool,
}

impl Place {
    // The next sibling, else back to the parent; none after the master.
    fn beside(self, store: Store<'_>) -> Option<Place> {
        if let Some(cap) = store.linked(layout::NEXT_CAP, self.cap) {
            return Some(Place {
                cap,
                depth: self.depth,
                met: true,
            });
        }
        let cap = store.linked(layout::PARENT, self.cap)?;
        Some(Place {
            cap,
            depth: self.depth.saturating_sub(1),
            met: false,
        })
    }

    // The first child of a capability that was just met, else as `beside`.
    fn next(self, store: Store<'_>) -> Option<Place> {
        match store.linked(layout::FIRST_CHILD, self.cap) {
            Some(cap) if self.met => Some(Place {
                cap,
                depth: self.depth.saturating_add(1),
                met: true,
            }),
            _ => self.beside(store),
        }
    }
}

#[derive(Drop)]
pub struct Walk<'a> {
    store: Store<'a>,
    // Where it goes next.
    next: Option<Place>,
    // How many steps it may still take.
    left: u32,
}

impl Walk<'_> {
    // From a master down.
    pub fn of(store: Store<'_>, master: usize) -> Walk<'_> {
        let next = Some(Place {
            cap: master,
            depth: 1,
            met: true,
        });
        Walk {
            store,
            next,
            left: STEPS,
        }
    }
}

impl Iterator for Walk<'_> {
    type Item = Place;

    ghost remaining = { λ walk. at_most walk.left };

    fn next(&mut self) -> Option<Place> {
        let place = self.next?;
        self.left = self.left.checked_sub(1)?;
        self.next = place.next(self.store);
        Some(place)
    }
}
