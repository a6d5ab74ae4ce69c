// What slot o holds, if it is a process: whether it is one, and the sums in its box.
ghost use Rattle.std.specs.Prelude.{◌≤◌, ◌*◌, ◌≡◌, length};
ghost use Rattle.rules.specs.Limit;
ghost use Rattle.layout.specs.Layout;
ghost use Rattle.layout.specs.Rows.{master_of, flag_of};
ghost use Rattle.layout.specs.View.{is_process};
ghost use Rattle.layout.specs.Sizes.{BytesLinks};
ghost use Rattle.layout.specs.Sums.{Amount, sums_from};

use crate::rows::field;
use crate::{FLAG, MASTER, MESSAGE_SLOTS, SUM};

// Slot o holds a living process.
pub fn is_process(bytes: &[u8], links: &[u16], o: usize) -> bool
    requires sizes { BytesLinks bytes.now links.now }
    requires slot { o ≤ Limit.objects }
    ensures { result ≡ is_process (master_of links.now) (flag_of bytes.now) o }
{
    o != 0 && links[MASTER + o] != 0 && bytes[FLAG + o] != 0
}

// The sums of n messages from slot i on. A count that was not checked is a byte, and there are no messages past the
// last slot.
pub fn sums_from(words: &[u32], n: usize, i: usize) -> u64
    requires { (length words.now ≡ Layout.WORDS) × (n ≤ 255) × (i ≤ 256) }
    ensures { Amount (Limit.word * 255) (sums_from words.now n i) result }
{
    let mut total: u64 = 0;
    for at in i..i + n {
        total += u64::from(field(words, MESSAGE_SLOTS, SUM, at));
    }
    total
}
