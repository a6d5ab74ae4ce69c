// An object's record joins the free ones.
ghost use Rattle.std.specs.Prelude.{◌≡◌};
ghost use Rattle.call_ending.specs.Links.{freed_object, ObjectAsks};

use call_prune::free::free_record;
use layout::{FREE_OBJECTS, MASTER, NEXT_OBJECT};

// The one in slot o, which has no master then.
pub(crate) fn free_object(links: &mut [u16], o: usize)
    requires { ObjectAsks links.old o }
    ensures { links.new ≡ freed_object links.old o }
{
    free_record::<MASTER, NEXT_OBJECT, FREE_OBJECTS>(links, o);
}
