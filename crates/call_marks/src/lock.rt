// "apply_lock: 8. XORs the target's lockword."
ghost use Rattle.values.specs.Words.{lockword_of};
ghost use Rattle.call_steps.specs.Replies.{Replies};
ghost use Rattle.call_marks.specs.Runs.{LockAsks, lock_run};

use crate::process::process_of;
use call_steps::request::{Given, Reply};
use layout::{LOCK1, LOCK2};
use values::password::xor_words;

// The lockword of the object that capability k is for.
pub fn apply_lock(bytes: &[u8], links: &[u16], words: &mut [u32], k: usize, lock: [u32; 2]) -> Reply
    requires { LockAsks bytes.now links.now words.old k }
    ensures { Replies result bytes.now links.now words.new
        (lock_run bytes.now links.now words.old k (lockword_of lock)) }
{
    let o = process_of(bytes, links, k)?;
    let first = words[LOCK1 + o];
    let second = words[LOCK2 + o];
    let x = xor_words([first, second], lock);
    words[LOCK1 + o] = x[0];
    words[LOCK2 + o] = x[1];
    Ok(Given::done())
}
