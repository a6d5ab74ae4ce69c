// No two capabilities of an object have the same p1. A hash table tells them apart: slots are entered from the last down,
// and each is compared only with those that were entered at the same place before it.
#![tactic(auto)]

ghost use Rattle.std.specs.Prelude.{◌≡◌, ◌≤◌, ◌<◌};
ghost use Rattle.rules.specs.Limit;
ghost use Rattle.layout.specs.Decides.{Decides};
ghost use Rattle.layout.specs.Sizes.{LinksWords};
ghost use Rattle.check_rows.specs.Buckets.{Buckets, Entered};
ghost use Rattle.check_passwords.specs.Passwords.{SamePassword, bucket, passwords};

use check_rows::table;
use layout::rows::field;
use layout::{OWNER, P1};
use values::limit::MAX_CAPS;

// The place in the table of an object and a p1.
fn bucket_of(owner: u16, p1: u32) -> usize
    ensures { (result ≡ bucket owner p1) × (result < 1024) }
{
    // kept: `usize` has no From<u32>, so `bucket_of` casts p1.
    (p1 as usize * 3242174889 / 4194304 + usize::from(owner) * 583) % 1024
}

// Slots i and j hold capabilities of the same object with the same p1.
fn same_password(links: &[u16], words: &[u32], i: usize, j: usize) -> bool
    requires { LinksWords links.now words.now }
    ensures { Decides (SamePassword links.now words.now i j) result }
{
    if field(words, MAX_CAPS, P1, i) != field(words, MAX_CAPS, P1, j) {
        return false;
    }
    let owner = field(links, MAX_CAPS, OWNER, i);
    owner != 0 && owner == field(links, MAX_CAPS, OWNER, j)
}

// No slot above i has the object and the p1 of slot i, by the table of the slots above i, which gets slot i too.
pub fn enter(links: &[u16], words: &[u32], heads: &mut [u16], next: &mut [u16], i: usize) -> bool
    requires sizes { LinksWords links.now words.now }
    requires table { Buckets (passwords links.now words.now) heads.old next.old i }
    requires slot { (1 ≤ i) × (i ≤ Limit.caps) }
    ensures { Entered (passwords links.now words.now)
        (SamePassword links.now words.now) heads.new next.new i result }
{
    let owner = field(links, MAX_CAPS, OWNER, i);
    let at = bucket_of(owner, field(words, MAX_CAPS, P1, i));
    table::enter(heads, next, at, i, |j| same_password(links, words, i, j))
}
