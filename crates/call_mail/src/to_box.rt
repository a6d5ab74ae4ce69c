// "send: 8; 9 the caller's cash is below the sum; 14 four messages in the box. The sum travels in the message; the
// target's waiting mark clears."
ghost use Rattle.call_steps.specs.Replies.{Replies};
ghost use Rattle.call_mail.specs.Runs.{PlaceAsks, SendAsks, MessagePlaced, send_run};

use call_steps::copy::copy;
use call_steps::request::{Given, Reply};
use call_steps::target::target;
use layout::process::is_process;
use layout::{CASH, COUNT, LENGTH, SUM, TEXT, WAITING};
use values::cash::Cash;
use values::limit::{BOX_SLOTS, MAX_MESSAGE, MAX_MESSAGES};
use values::refusal::Refusal;

// The message in slot i: its text, its length and its sum.
fn place(bytes: &mut [u8], words: &mut [u32], text: &[u8], i: usize, sum: u32)
    requires { PlaceAsks bytes.old words.old text.now i }
    ensures { MessagePlaced bytes.old words.old text.now i sum
        bytes.new words.new }
{
    copy(text, 0, bytes, TEXT + i * MAX_MESSAGE, text.len());
    bytes[LENGTH + i] = text.len() as u8;
    words[SUM + i] = sum;
}

// The caller, in slot me, sends the text and the sum to the object that capability k is for.
pub fn send(
    bytes: &mut [u8],
    links: &[u16],
    words: &mut [u32],
    text: &[u8],
    me: usize,
    k: usize,
    sum: u32,
) -> Reply
    requires { SendAsks bytes.old links.now words.old text.now me k }
    ensures { Replies result bytes.new links.now words.new
        (send_run bytes.old links.now words.old text.now me k sum) }
{
    let o = target(links, k);
    if !is_process(bytes, links, o) {
        return Err(Refusal::NotProcess);
    }
    if Cash(words[CASH + me]).below(sum) {
        return Err(Refusal::TooLittle);
    }
    let count = bytes[COUNT + o];
    if MAX_MESSAGES <= count {
        return Err(Refusal::BoxFull);
    }
    let left = Cash(words[CASH + me]).less(sum);
    words[CASH + me] = left.0;
    place(bytes, words, text, o * BOX_SLOTS + usize::from(count), sum);
    bytes[COUNT + o] = count + 1;
    bytes[WAITING + o] = 0;
    Ok(Given::done())
}
