// make_obj after the fee: "12 the serial is taken on that volume; 13 64 objects or 512 capabilities live, or too few free
// blocks"; else an object with its blocks and its master.
#![tactic(auto)]

ghost use Rattle.values.specs.Words.{password_of};
ghost use Rattle.call_steps.specs.Request.{name_of};
ghost use Rattle.call_steps.specs.Replies.{Replies};
ghost use Rattle.call_make.specs.Runs.{MakeAsks, make_run};

use crate::make::place;
use crate::space::no_space;
use call_steps::objects::find_object;
use call_steps::request::{Given, Reply, Request};
use layout::FREE_OBJECTS;
use values::blocks::blocks_of;
use values::refusal::Refusal;

mod make;
mod record;
mod space;

// A new object with the name, the size and the flag of the request, and its master, which is handed back as drawn.
pub fn make_obj(bytes: &mut [u8], links: &mut [u16], words: &mut [u32], req: Request) -> Reply
    requires { MakeAsks bytes.old links.old words.old (name_of req.name) req.size req.flag
        req.rights }
    ensures { Replies result bytes.new links.new words.new
        (make_run bytes.old links.old words.old (name_of req.name) req.size
        req.flag req.rights (password_of req.drawn)) }
{
    let name = req.name;
    if find_object(bytes, links, name).is_some() {
        return Err(Refusal::Taken);
    }
    if no_space(links, blocks_of(req.size) as usize) {
        return Err(Refusal::NoSpace);
    }
    let o = usize::from(links[FREE_OBJECTS]);
    place(bytes, links, words, o, req);
    let drawn = req.drawn;
    Ok(Given::hands_back(name, drawn))
}
