// "suspend, resume: 8 not a process. Sets or clears the mark." "wait: no more."
// "With an empty box it sets the mark."
ghost use Rattle.std.specs.Prelude.{ℕ, ◌≡◌, List, length};
ghost use Rattle.std.specs.Int.{from_bool};
ghost use Rattle.layout.specs.Layout as Layout;
ghost use Rattle.call_steps.specs.Tests.{ObjectSlot};
ghost use Rattle.call_steps.specs.Replies.{Replies};
ghost use Rattle.call_marks.specs.Runs.{MarkAsks, suspended_run, wait_run};

use crate::process::process_of;
use call_steps::request::{Given, Reply};
use layout::{COUNT, SUSPENDED, WAITING};

// The suspended mark of the object that capability k is for.
fn set_suspended(bytes: &mut [u8], links: &[u16], k: usize, suspended: bool) -> Reply
    requires { MarkAsks bytes.old links.now k }
    ensures { (w : List ℕ) → Replies result bytes.new links.now w
        (suspended_run bytes.old links.now w k (from_bool suspended)) }
{
    let o = process_of(bytes, links, k)?;
    bytes[SUSPENDED + o] = u8::from(suspended);
    Ok(Given::done())
}

pub fn suspend(bytes: &mut [u8], links: &[u16], k: usize) -> Reply
    requires { MarkAsks bytes.old links.now k }
    ensures { (w : List ℕ) → Replies result bytes.new links.now w
        (suspended_run bytes.old links.now w k 1) }
{
    set_suspended(bytes, links, k, true)
}

pub fn resume(bytes: &mut [u8], links: &[u16], k: usize) -> Reply
    requires { MarkAsks bytes.old links.now k }
    ensures { (w : List ℕ) → Replies result bytes.new links.now w
        (suspended_run bytes.old links.now w k 0) }
{
    set_suspended(bytes, links, k, false)
}

// The waiting mark of the caller, in slot me, where its box is empty.
pub fn wait(bytes: &mut [u8], me: usize) -> Reply
    requires fact_1 { length bytes.old ≡ Layout.BYTES }
    requires fact_2 { ObjectSlot me }
    ensures { (l w : List ℕ) → Replies result bytes.new l w (wait_run bytes.old l w me) }
{
    if bytes[COUNT + me] == 0 {
        bytes[WAITING + me] = 1;
    }
    Ok(Given::done())
}
