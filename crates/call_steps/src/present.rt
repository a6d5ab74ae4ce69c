// Refusals 5, 19 and 6: the capability presented, its last day, and the right that is asked of it.
ghost use Rattle.std.specs.Prelude.{◌≡◌, List, ℕ, length};
ghost use Rattle.rules.specs.Rights.{has};
ghost use Rattle.rules.specs.Password.{presented};
ghost use Rattle.rules.specs.Refusals.{expired};
ghost use Rattle.layout.specs.Layout;
ghost use Rattle.layout.specs.View.{view};
ghost use Rattle.layout.specs.WellFormed.{Plain};
ghost use Rattle.call_steps.specs.Admits.{Admits};
ghost use Rattle.call_steps.specs.Request.{capability_of};
ghost use Rattle.call_steps.specs.Run.{Process, Held};
ghost use Rattle.call_steps.specs.Tests.{slot_found};

use crate::objects::find_object;
use crate::owned::find_cap;
use crate::request::Capability;
use layout::{DAY, LAST_DAY, LOCK1, LOCK2, P2, RIGHTS};
use values::password::unlock;
use values::refusal::Refusal;
use values::rights::Rights;

// The slot of the capability that the process in slot me presents.
fn present(bytes: &[u8], links: &[u16], words: &[u32], me: usize, x: Capability) -> Option<usize>
    requires plain { Plain bytes.now links.now words.now }
    requires process { Process bytes.now links.now me }
    ensures { result
        ≡ slot_found (presented (view bytes.now links.now words.now) me (capability_of x)) }
{
    let o = find_object(bytes, links, x.name)?;
    let p = unlock(x.password, [words[LOCK1 + me], words[LOCK2 + me]]);
    let k = find_cap(links, words, o, p[0])?;
    if words[P2 + k] == p[1] { Some(k) } else { None }
}

// The capability in slot k holds the right.
pub fn right_held(links: &[u16], k: usize, right: Rights) -> bool
    requires fact_1 { length links.now ≡ Layout.LINKS }
    requires fact_2 { Held links.now k }
    ensures { (b w : List ℕ) → result ≡ has ((view b links.now w).cap k).rights right.0 }
{
    Rights(links[RIGHTS + k]).has(right)
}

// The store's day is after the last day of the capability in slot k.
pub fn expired(links: &[u16], k: usize) -> bool
    requires fact_1 { length links.now ≡ Layout.LINKS }
    requires fact_2 { Held links.now k }
    ensures { (b w : List ℕ) → result ≡ expired (view b links.now w) k }
{
    links[LAST_DAY + k] < links[DAY]
}

// A refusal, and the slot of the capability presented, 0 where none was found.
#[derive(Clone, Copy, Debug, PartialEq, Eq)]
pub struct Denied {
    pub refusal: Refusal,
    pub slot: usize,
}

impl From<Denied> for Refusal {
    ghost from_gives = { λ d r. r ≡ d.refusal };

    fn from(denied: Denied) -> Refusal {
        denied.refusal
    }
}

// The process in slot me presents a capability, of which the right is asked: its slot.
pub fn admit(
    bytes: &[u8],
    links: &[u16],
    words: &[u32],
    me: usize,
    x: Capability,
    right: Rights,
) -> Result<usize, Denied>
    requires plain { Plain bytes.now links.now words.now }
    requires process { Process bytes.now links.now me }
    ensures { Admits (view bytes.now links.now words.now) me
        (capability_of x) right.0 result }
{
    let Some(k) = present(bytes, links, words, me, x) else {
        return Err(Denied {
            refusal: Refusal::NotFound,
            slot: 0,
        });
    };
    if expired(links, k) {
        return Err(Denied {
            refusal: Refusal::Expired,
            slot: k,
        });
    }
    if right_held(links, k, right) {
        Ok(k)
    } else {
        Err(Denied {
            refusal: Refusal::RightMissing,
            slot: k,
        })
    }
}
