// The check of the objects of a store: the fields of each, and that their names differ. One pass does both, since the
// processor mispredicts a test whether a slot is free where living and free slots are mixed.
#![tactic(auto)]

ghost use Rattle.rules.specs.Limit;
ghost use Rattle.layout.specs.WellFormed.{Sized};
ghost use Rattle.layout.specs.Decides.{Decides};
ghost use Rattle.check_rows.specs.Buckets.{Buckets};
ghost use Rattle.check_objects.specs.Names.{name_keys};
ghost use Rattle.check_objects.specs.Parts.{AllObjects};

use crate::fit::object_fits;
use crate::names::enter;
use values::limit::MAX_OBJECTS;

mod fit;
mod names;

// The pass, with a table of no slot yet.
fn all_fit(bytes: &[u8], links: &[u16], words: &[u32], heads: &mut [u16], next: &mut [u16]) -> bool
    requires sizes { Sized bytes.now links.now words.now }
    requires table { Buckets (name_keys bytes.now links.now) heads.old next.old Limit.objects }
    ensures { Decides (AllObjects bytes.now links.now words.now) result }
{
    for o in (1..=MAX_OBJECTS).rev() {
        if !object_fits(bytes, links, words, o) {
            return false;
        }
        if !enter(bytes, links, heads, next, o) {
            return false;
        }
    }
    true
}

pub fn objects_fit(bytes: &[u8], links: &[u16], words: &[u32]) -> bool
    requires { Sized bytes.now links.now words.now }
    ensures { Decides (AllObjects bytes.now links.now words.now) result }
{
    let mut heads = [0u16; 128];
    let mut next = [0u16; MAX_OBJECTS + 1];
    all_fit(bytes, links, words, &mut heads, &mut next)
}
