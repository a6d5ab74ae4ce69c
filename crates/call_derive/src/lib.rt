// derive_cap after the fee and with the capability found: "12 p1 is taken in the object; 13 512 capabilities live"; else a
// child of the capability is made and linked.
#![tactic(auto)]

ghost use Rattle.values.specs.Words.{password_of, window_of};
ghost use Rattle.call_steps.specs.Replies.{Replies};
ghost use Rattle.call_derive.specs.Runs.{DeriveAsks, derive_run};

use crate::child::{add_child, child_of};
use call_steps::objects::name_at;
use call_steps::request::{Given, Reply, Request};
use call_steps::taken::p1_taken;
use layout::{FREE_CAPS, OWNER};
use values::refusal::Refusal;

mod child;

// A child of the capability in slot k, with the rights, the range, the last day and the limit of the request.
pub fn derive_cap(
    bytes: &[u8],
    links: &mut [u16],
    words: &mut [u32],
    k: usize,
    req: Request,
) -> Reply
    requires { DeriveAsks bytes.now links.old words.old k req.rights req.last_day }
    ensures { Replies result bytes.now links.new words.new
        (derive_run bytes.now links.old words.old k req.rights (window_of req.range)
        (password_of req.drawn) req.limit req.last_day) }
{
    let drawn = req.drawn;
    let o = usize::from(links[OWNER + k]);
    if p1_taken(links, words, o, drawn[0]) {
        return Err(Refusal::Taken);
    }
    if links[FREE_CAPS] == 0 {
        return Err(Refusal::NoSpace);
    }
    let name = name_at(bytes, links, o);
    let x = child_of(links, words, k, req);
    add_child(links, words, k, x, req.limit);
    Ok(Given::hands_back(name, drawn))
}
