// The whole shape: the chains of objects, the trees of capabilities, the chains of blocks.
ghost use Rattle.std.specs.Prelude.{◌≡◌, length};
ghost use Rattle.layout.specs.Layout;
ghost use Rattle.layout.specs.Shape.{Shape};
ghost use Rattle.layout.specs.Decides.{Decides};

use crate::caps::check_caps;
use check_chains::blocks::check_blocks;
use check_chains::objects::check_objects;

// The links have the shape of a well-formed store.
pub fn check_shape(links: &[u16]) -> bool
    requires { length links.now ≡ Layout.LINKS }
    ensures { Decides (Shape links.now) result }
{
    if !check_objects(links) {
        return false;
    }
    check_caps(links) && check_blocks(links)
}
