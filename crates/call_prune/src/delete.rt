// "delete_cap: no more. The capability and all its descendants end." This is of one that is no master.
ghost use Rattle.std.specs.Prelude.{◌≡◌};
ghost use Rattle.call_prune.specs.Links.{deleted_links, Child};

use crate::below::prune_below;
use crate::leaf::drop_leaf;

// Ends k and all below it.
pub fn delete_child(links: &mut [u16], k: usize)
    requires { Child links.old k }
    ensures { links.new ≡ deleted_links links.old k }
{
    prune_below(links, k);
    drop_leaf(links, k);
}
