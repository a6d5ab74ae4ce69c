// A tile of a pattern, turned: bit j of byte i becomes bit i of byte j.
ghost use Rattle.std.specs.Prelude.{◌≡◌, ◌+◌, ◌≤◌, length};
ghost use Rattle.std.proofs.lemmas.List.Edits.{sets};
ghost use Rattle.product_hooks.specs.Tile.{Across, Holds, bytes_of, turned_at};

// The tile in a word, turned by three exchanges: of single bits, of blocks of 2 by 2, and of blocks of 4 by 4.
fn turn_tile(x: u64) -> u64
    ensures { Across x result }
{
    let a = (x ^ (x >> 7)) & 0x00AA_00AA_00AA_00AA;
    let y = x ^ a ^ (a << 7);
    let b = (y ^ (y >> 14)) & 0x0000_CCCC_0000_CCCC;
    let z = y ^ b ^ (b << 14);
    let c = (z ^ (z >> 28)) & 0x0000_0000_F0F0_F0F0;
    z ^ c ^ (c << 28)
}

// The tile from place `at` on, its first byte lowest. By `|`, and not by `+`: so the compiler takes two tiles at once.
// kept: `u64::from_le_bytes` adds, and so one tile is taken at a time, which took `turn` twice as long as the fastest plain Rust.
fn load(pattern: &[u8], at: usize) -> u64
    requires { at + 8 ≤ length pattern.now }
    ensures { Holds pattern.now at result }
{
    u64::from(pattern[at])
        | u64::from(pattern[at + 1]) * 256
        | u64::from(pattern[at + 2]) * 65536
        | u64::from(pattern[at + 3]) * 16777216
        | u64::from(pattern[at + 4]) * 4294967296
        | u64::from(pattern[at + 5]) * 1099511627776
        | u64::from(pattern[at + 6]) * 281474976710656
        | u64::from(pattern[at + 7]) * 72057594037927936
}

fn store(pattern: &mut [u8], at: usize, x: u64)
    requires { at + 8 ≤ length pattern.old }
    ensures { pattern.new ≡ sets pattern.old at (bytes_of x) }
{
    pattern[at] = (x % 256) as u8;
    pattern[at + 1] = (x / 256 % 256) as u8;
    pattern[at + 2] = (x / 65536 % 256) as u8;
    pattern[at + 3] = (x / 16777216 % 256) as u8;
    pattern[at + 4] = (x / 4294967296 % 256) as u8;
    pattern[at + 5] = (x / 1099511627776 % 256) as u8;
    pattern[at + 6] = (x / 281474976710656 % 256) as u8;
    pattern[at + 7] = (x / 72057594037927936 % 256) as u8;
}

// Turns the tile from place `at` on.
pub(crate) fn turn_at(pattern: &mut [u8], at: usize)
    requires { at + 8 ≤ length pattern.old }
    ensures { pattern.new ≡ turned_at at pattern.old }
{
    let x = load(pattern, at);
    store(pattern, at, turn_tile(x));
}
