// Bytes from one slice to another, by the library's copy.
ghost use Rattle.std.specs.Prelude.{◌+◌, ◌≤◌, length};
ghost use Rattle.call_steps.specs.Copies.{Copied};

// n bytes from place `from` on, to place `to` on.
pub fn copy(src: &[u8], from: usize, dst: &mut [u8], to: usize, n: usize)
    requires { (from + n ≤ length src.now) × (to + n ≤ length dst.old) }
    ensures { Copied n src.now from dst.old to dst.new }
{
    dst[to..to + n].copy_from_slice(&src[from..from + n]);
}
