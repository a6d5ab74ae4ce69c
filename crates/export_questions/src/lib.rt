// The free questions by rows of numbers: the functions for C hand on to these.
#![tactic(auto)]

ghost use Rattle.export_questions.specs.Told.{WindowTold, CountTold, LendTold};

use export_numbers::count::CountAsked;
use export_numbers::lend::LendAsked;
use export_numbers::numbers::{asked, tell, unfit};
use export_numbers::window::WindowAsked;
use question_count::ask_count;
use question_lend::ask_lend;
use question_window::ask_window;

// Asks for the window that the request's numbers say, and writes the reply's; where either slice has another length, nothing.
pub fn window_by_numbers(
    bytes: &[u8],
    links: &[u16],
    words: &[u32],
    request: &[u32],
    reply: &mut [u32],
) -> u32
    ensures { WindowTold bytes.now links.now words.now request.now result
        reply.old reply.new }
{
    let Some(ask) = asked::<WindowAsked>(request, reply) else {
        return unfit(bytes, links, words);
    };
    let window = ask_window(bytes, links, words, ask.caller, ask.presented);
    tell(window, reply)
}

// Asks for the count of passwords in the same way.
pub fn count_by_numbers(
    bytes: &[u8],
    links: &[u16],
    words: &[u32],
    request: &[u32],
    reply: &mut [u32],
) -> u32
    ensures { CountTold bytes.now links.now words.now request.now result
        reply.old reply.new }
{
    let Some(ask) = asked::<CountAsked>(request, reply) else {
        return unfit(bytes, links, words);
    };
    let counted = ask_count(bytes, links, words, ask.process, ask.object, ask.right);
    tell(counted, reply)
}

// Asks in the same way what can be lent from a list.
pub fn lend_by_numbers(
    bytes: &[u8],
    links: &[u16],
    words: &[u32],
    list: &[u32],
    request: &[u32],
    reply: &mut [u32],
) -> u32
    ensures { LendTold bytes.now links.now words.now list.now
        request.now result reply.old reply.new }
{
    let Some(ask) = asked::<LendAsked>(request, reply) else {
        return unfit(bytes, links, words);
    };
    let lent = ask_lend(bytes, links, words, list, ask.lender, ask.wish);
    tell(lent, reply)
}
