// "A done delete or rename leaves the scratch all zero."
ghost use Rattle.std.specs.Prelude.{◌≡◌, length, replicate};

// Zeros in every cell.
pub fn clear(scratch: &mut [u16])
    ensures { scratch.new ≡ replicate (length scratch.old) 0 }
{
    scratch.fill(0);
}
