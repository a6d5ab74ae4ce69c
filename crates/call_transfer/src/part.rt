// The part of a copy that stands in one block.
ghost use Rattle.std.specs.Prelude.{◌-◌, ◌%◌, min, ◌≡◌};
ghost use Rattle.rules.specs.Limit as Limit;

use values::limit::BLOCK_SIZE;

// Of n bytes from byte p on, those that stand in its block.
pub(crate) fn part_of(p: usize, n: usize) -> usize
    ensures { result ≡ min n (Limit.block - p % Limit.block) }
{
    let left = BLOCK_SIZE - p % BLOCK_SIZE;
    n.min(left)
}
