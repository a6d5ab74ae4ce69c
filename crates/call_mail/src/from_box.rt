// "receive: 15 the box is empty. Takes the oldest; its sum joins the cash." "A done read or receive writes its bytes at
// the buffer's front and changes no later byte."
ghost use Rattle.std.specs.Prelude.{ℕ, List};
ghost use Rattle.call_steps.specs.Replies.{Fills};
ghost use Rattle.call_mail.specs.Runs.{MoveAsks, Moved, ReceiveAsks, receive_run};

use call_steps::copy::copy;
use call_steps::request::{Given, Reply};
use layout::{CASH, COUNT, LENGTH, SUM, TEXT};
use values::cash::Cash;
use values::limit::{BOX_SLOTS, MAX_MESSAGE};
use values::refusal::Refusal;

// The bytes that the texts of a box take.
const BOX_TEXTS: usize = BOX_SLOTS * MAX_MESSAGE;

// The three messages after slot i move down one place: texts, lengths and sums. The copy goes over a box's part of the
// row, where the compiler sees which way it goes; over the whole row it took twice as long.
fn move_down(bytes: &mut [u8], words: &mut [u32], i: usize)
    requires { MoveAsks bytes.old words.old i }
    ensures { Moved bytes.old words.old i bytes.new words.new }
{
    let text = TEXT + i * MAX_MESSAGE;
    bytes[text..text + BOX_TEXTS].copy_within(MAX_MESSAGE..BOX_TEXTS, 0);
    let length = LENGTH + i;
    bytes[length..length + BOX_SLOTS].copy_within(1..BOX_SLOTS, 0);
    let sum = SUM + i;
    words[sum..sum + BOX_SLOTS].copy_within(1..BOX_SLOTS, 0);
}

// The oldest message of the caller, in slot me: its bytes to the buffer's front, its sum to the caller's cash.
pub fn receive(bytes: &mut [u8], words: &mut [u32], buffer: &mut [u8], me: usize) -> Reply
    requires { ReceiveAsks bytes.old words.old buffer.old me }
    ensures { (l : List ℕ) → Fills result bytes.new l words.new buffer.old
        buffer.new (receive_run bytes.old l words.old me) }
{
    let count = bytes[COUNT + me];
    if count == 0 {
        return Err(Refusal::BoxEmpty);
    }
    let i = me * BOX_SLOTS;
    let length = bytes[LENGTH + i];
    let sum = words[SUM + i];
    copy(
        bytes,
        TEXT + i * MAX_MESSAGE,
        buffer,
        0,
        usize::from(length),
    );
    let cash = Cash(words[CASH + me]);
    words[CASH + me] = cash.0 + sum;
    move_down(bytes, words, i);
    bytes[COUNT + me] = count - 1;
    Ok(Given::hands_over(sum, u32::from(length)))
}
