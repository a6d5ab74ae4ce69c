// The objects: 01, "each record is in exactly one chain of its kind", the living ones and the free ones.
ghost use Rattle.std.specs.Prelude.{◌≡◌, length};
ghost use Rattle.layout.specs.Layout;
ghost use Rattle.layout.specs.Shape.{Objects};
ghost use Rattle.layout.specs.Decides.{Decides};

use crate::chain::{walk, walk_free};
use crate::marks::full;
use layout::{FREE_OBJECTS, MASTER, NEXT_OBJECT, OBJECTS};
use values::limit::MAX_OBJECTS;

// Each object is in one of the two chains, once: in the first if it has a master, and else in the free one.
pub fn check_objects(links: &[u16]) -> bool
    requires { length links.now ≡ Layout.LINKS }
    ensures { Decides (Objects links.now) result }
{
    let mut seen = [0u8; MAX_OBJECTS + 1];
    let free = usize::from(links[FREE_OBJECTS]);
    let head = usize::from(links[OBJECTS]);
    if !walk_free(links, NEXT_OBJECT, MASTER, MAX_OBJECTS, &mut seen, free) {
        return false;
    }
    walk(links, NEXT_OBJECT, MAX_OBJECTS, &mut seen, head) && full(&seen, MAX_OBJECTS)
}
