// "revive: 8; 16 not terminated, or sum 0; 9 the caller's cash is below the sum. The terminated mark clears and the sum
// moves from the caller's cash to the target's."
ghost use Rattle.std.specs.Prelude.{◌≡◌, length};
ghost use Rattle.layout.specs.Layout as Layout;
ghost use Rattle.call_steps.specs.Replies.{Replies};
ghost use Rattle.call_steps.specs.Tests.{ObjectSlot};
ghost use Rattle.call_marks.specs.Runs.{Room, ReviveAsks, moved_words, revive_run};

use crate::process::process_of;
use call_steps::request::{Given, Reply};
use layout::{CASH, TERMINATED};
use values::cash::Cash;
use values::refusal::Refusal;

// The sum moves from the cash at slot me to that at slot o: first taken, then added to what that left.
fn move_cash(words: &mut [u32], me: usize, o: usize, sum: u32)
    requires fact_1 { length words.old ≡ Layout.WORDS }
    requires fact_2 { ObjectSlot me }
    requires fact_3 { ObjectSlot o }
    requires fact_4 { Room words.old me o sum }
    ensures { words.new ≡ moved_words words.old me o sum }
{
    let left = Cash(words[CASH + me]).less(sum);
    words[CASH + me] = left.0;
    let held = Cash(words[CASH + o]);
    words[CASH + o] = held.0 + sum;
}

// The caller, in slot me, pays the object that capability k is for.
pub fn revive(
    bytes: &mut [u8],
    links: &[u16],
    words: &mut [u32],
    me: usize,
    k: usize,
    sum: u32,
) -> Reply
    requires { ReviveAsks bytes.old links.now words.old me k sum }
    ensures { Replies result bytes.new links.now words.new
        (revive_run bytes.old links.now words.old me k sum) }
{
    let o = process_of(bytes, links, k)?;
    if bytes[TERMINATED + o] == 0 || sum == 0 {
        return Err(Refusal::NotRevivable);
    }
    if Cash(words[CASH + me]).below(sum) {
        return Err(Refusal::TooLittle);
    }
    move_cash(words, me, o, sum);
    bytes[TERMINATED + o] = 0;
    Ok(Given::done())
}
