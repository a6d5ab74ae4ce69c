// 01, "A decision over call numbers 1 to 16 chooses the call; all others go to refusal 2".
ghost use Rattle.std.specs.Prelude.{length};
ghost use Rattle.call_steps.specs.Request.{call_of};
ghost use Rattle.kernel_step.specs.Slices.{slices};
ghost use Rattle.kernel_step.specs.Asks.{OwnAsks};
ghost use Rattle.kernel_step.specs.Ends.{OwnEnds};

use call_delete::delete_cap;
use call_derive::derive_cap;
use call_mail::from_box::receive;
use call_mail::to_box::send;
use call_make::make_obj;
use call_marks::info::cap_info;
use call_marks::lock::apply_lock;
use call_marks::mark::{resume, suspend, wait};
use call_marks::terminated::revive;
use call_purse::{deposit, withdraw};
use call_rename::rename_obj;
use call_steps::request::{Reply, Request};
use call_transfer::from_blocks::read;
use call_transfer::to_blocks::write;
use values::refusal::Refusal;

// The call's own part; slot me is the caller's, slot k that of the capability presented.
pub(crate) fn own(
    bytes: &mut [u8],
    links: &mut [u16],
    words: &mut [u32],
    text: &[u8],
    buffer: &mut [u8],
    scratch: &mut [u16],
    me: usize,
    k: usize,
    req: Request,
) -> Reply
    requires { OwnAsks bytes.old links.old words.old
        (call_of req text.now (length buffer.old) (length scratch.old)) me k }
    ensures { OwnEnds req text.now me k result
        (slices bytes.old links.old words.old buffer.old scratch.old)
        (slices bytes.new links.new words.new buffer.new scratch.new) }
{
    // kept: 01 has "a decision over call numbers 1 to 16" here, and no enum of calls
    match req.number {
        1 => make_obj(bytes, links, words, req),
        2 => read(bytes, links, words, buffer, k, req.range),
        3 => write(bytes, links, words, text, k, req.range),
        4 => cap_info(words, k),
        5 => derive_cap(bytes, links, words, k, req),
        6 => delete_cap(bytes, links, words, scratch, k),
        7 => rename_obj(bytes, links, words, scratch, k, req.drawn),
        8 => withdraw(links, words, me, k, req.sum),
        9 => deposit(links, words, me, k, req.sum),
        10 => suspend(bytes, links, k),
        11 => resume(bytes, links, k),
        12 => apply_lock(bytes, links, words, k, req.lock),
        13 => send(bytes, links, words, text, me, k, req.sum),
        14 => receive(bytes, words, buffer, me),
        15 => wait(bytes, me),
        16 => revive(bytes, links, words, me, k, req.sum),
        _ => Err(Refusal::OutOfRange),
    }
}
