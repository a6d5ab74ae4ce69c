// An object's bytes are held in blocks of 64.
ghost use Rattle.std.specs.Prelude.{◌≡◌};
ghost use Rattle.rules.specs.Store.{blocks};

use crate::limit::BLOCK_SIZE;

const BLOCK: u32 = BLOCK_SIZE as u32;

// How many blocks a size needs: divided by 64, rounded up.
pub fn blocks_of(size: u32) -> u32
    ensures { result ≡ blocks size }
{
    size.div_ceil(BLOCK)
}
