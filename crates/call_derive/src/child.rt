// "The child has .. the rights in both sets, and each end of the range moved to the nearest point of the parent's window."
// 02, CR 1: "The child's moneyword is the smaller of the limit and the parent's moneyword." CR 9, of the last day given:
// "the child has the smaller of it and the parent's".
ghost use Rattle.values.specs.Words.{password_of, window_of};
ghost use Rattle.call_grow.specs.Made.{cap_of};
ghost use Rattle.call_derive.specs.Runs.{ChildAsks, IsChild, AddAsks, Adds};

use call_grow::cap::{NewCap, new_cap};
use call_steps::request::Request;
use call_steps::target::window_at;
use layout::{FIRST_CHILD, LAST_DAY, MONEY, OWNER, PREV_CAP, RIGHTS};
use values::moneyword::Moneyword;
use values::rights::Rights;

// The child of the capability in slot k with the rights, the range, the password and the last day of the request; its next
// sibling is to be the first child.
pub(crate) fn child_of(links: &[u16], words: &[u32], k: usize, req: Request) -> NewCap
    requires { ChildAsks links.now words.now k req.rights req.last_day }
    ensures { IsChild links.now words.now k req.rights (window_of req.range) (password_of req.drawn)
        req.last_day result }
{
    let window = window_at(words, k);
    let own = Rights(links[RIGHTS + k]);
    // kept: `as` in child_of and add_child, where TryFrom would be a failure that ChildAsks and AddAsks rule out
    let asked = Rights(req.rights as u16);
    let given = req.last_day as u16;
    let parents = links[LAST_DAY + k];
    let drawn = req.drawn;
    NewCap {
        object: links[OWNER + k],
        parent: k as u16,
        next: links[FIRST_CHILD + k],
        rights: own.both(asked),
        password: drawn,
        window: window.moved(req.range),
        last_day: given.min(parents),
    }
}

// The record x is made, with the moneyword of the capability in slot k up to the limit, and becomes its first child.
pub(crate) fn add_child(links: &mut [u16], words: &mut [u32], k: usize, x: NewCap, limit: u32)
    requires { AddAsks links.old words.old k x.next }
    ensures { Adds links.old words.old k (cap_of x) x.next limit
        links.new words.new }
{
    let next = usize::from(x.next);
    let amount = words[MONEY + k];
    let purse = Moneyword(amount).at_most(limit);
    let i = new_cap(links, words, x, purse);
    let link = i as u16;
    links[FIRST_CHILD + k] = link;
    links[PREV_CAP + next] = link;
}
