// A pattern of any length, turned tile by tile.
ghost use Rattle.std.specs.Prelude.{◌≡◌, ◌≤◌, length};
ghost use Rattle.product_hooks.specs.Turned.{turned, turned_front};

use crate::tile::turn_at;

// Turns every whole tile; an incomplete last one stays as it is.
pub fn turn(pattern: &mut [u8])
    ensures { pattern.new ≡ turned pattern.old }
{
    for k in 0..pattern.len() / 8 {
        turn_at(pattern, k * 8);
    }
}

// Turns the first n bytes, and leaves the rest.
pub(crate) fn turn_front(pattern: &mut [u8], n: usize)
    requires { n ≤ length pattern.old }
    ensures { pattern.new ≡ turned_front n pattern.old }
{
    turn(&mut pattern[..n]);
}
