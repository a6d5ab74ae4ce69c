// Passwords and lockwords are arrays of two 32-bit words, by value.
ghost use Rattle.std.specs.Prelude.{◌≡◌};
ghost use Rattle.rules.specs.Password.{unlock};
ghost use Rattle.values.specs.Words.{password_of, lockword_of, xor_of, top_bit};

use crate::limit::TOP;

// The two words of a, each XORed with that of b.
pub fn xor_words(a: [u32; 2], b: [u32; 2]) -> [u32; 2]
    ensures { result ≡ xor_of a b }
{
    [a[0] ^ b[0], a[1] ^ b[1]]
}

// The top bit of a word.
fn top_bit(x: u32) -> u32
    ensures { result ≡ top_bit x }
{
    x / TOP
}

// The password as it is looked up: the lockword times p1's top bit is XORed in, always; nothing branches on that bit.
pub fn unlock(p: [u32; 2], lock: [u32; 2]) -> [u32; 2]
    ensures { password_of result ≡ unlock (password_of p) (lockword_of lock) }
{
    let p1 = p[0];
    let first = lock[0];
    let second = lock[1];
    let top = top_bit(p1);
    xor_words(p, [first * top, second * top])
}
