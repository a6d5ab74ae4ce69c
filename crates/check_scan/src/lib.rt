// One pass over the capabilities: the fields of each, its p1 in the hash table, and the masters' part of the total.
// It goes by a list of the living slots, made first without a branch on what lives: where living and free slots are
// mixed, the processor mispredicts such a branch half of the time.
#![tactic(auto)]

ghost use Rattle.std.specs.Prelude.{◌≡◌, ◌+◌, ◌≤◌, length};
ghost use Rattle.rules.specs.Limit;
ghost use Rattle.layout.specs.Sizes.{LinksWords};
ghost use Rattle.check_rows.specs.Buckets.{Buckets};
ghost use Rattle.check_passwords.specs.Passwords.{passwords};
ghost use Rattle.layout.specs.Layout;
ghost use Rattle.check_scan.specs.Scanned.{Scanned};
ghost use Rattle.check_scan.specs.Slots.{Slots, NextPlace};

use check_caps::cap_fits;
use check_money::money_at;
use check_passwords::enter;
use layout::OWNER;
use layout::rows::field;
use values::limit::MAX_CAPS;

// The next free place of the list, after slot i was written at place n.
fn next_place(links: &[u16], i: usize, n: usize) -> usize
    requires { (length links.now ≡ Layout.LINKS) × (n ≤ Limit.caps) }
    ensures { NextPlace links.now i n result }
{
    if field(links, MAX_CAPS, OWNER, i) == 0 {
        return n;
    }
    n + 1
}

// Lists the living slots from the last down, and says how many.
fn list_living(links: &[u16], list: &mut [u16]) -> usize
    requires sizes { length links.now ≡ Layout.LINKS }
    requires room { length list.old ≡ Limit.caps + 1 }
    ensures { Slots links.now list.new 0 result 0 Limit.caps }
{
    let mut n: usize = 0;
    for i in (1..=MAX_CAPS).rev() {
        // kept: a slot is 512 at the most; `try_from` would give `list_living` a refusal that it cannot have.
        list[n] = i as u16;
        n = next_place(links, i, n);
    }
    n
}

// The pass over the living slots, with a table of no slot yet.
fn scan_all(
    links: &[u16],
    words: &[u32],
    heads: &mut [u16],
    next: &mut [u16],
    living: &[u16],
) -> Option<u64>
    requires sizes { LinksWords links.now words.now }
    requires table { Buckets (passwords links.now words.now) heads.old next.old Limit.caps }
    requires listed { Slots links.now living.now 0 (length living.now) 0 Limit.caps }
    ensures { Scanned links.now words.now result }
{
    let mut total: u64 = 0;
    for entry in living {
        let i = usize::from(*entry);
        if !cap_fits(links, words, i) {
            return None;
        }
        if !enter(links, words, heads, next, i) {
            return None;
        }
        total += u64::from(money_at(links, words, i).0);
    }
    Some(total)
}

// The masters' moneywords, if all capabilities fit and no two of an object have the same p1.
pub fn scan_caps(links: &[u16], words: &[u32]) -> Option<u64>
    requires { LinksWords links.now words.now }
    ensures { Scanned links.now words.now result }
{
    let mut list = [0u16; MAX_CAPS + 1];
    let n = list_living(links, &mut list);
    let mut heads = [0u16; 1024];
    let mut next = [0u16; MAX_CAPS + 1];
    scan_all(links, words, &mut heads, &mut next, &list[..n])
}
