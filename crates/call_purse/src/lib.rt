// 01's withdraw and deposit after the fee, with the capability found: the two calls that turn moneywords into cash and
// cash into moneywords.
#![tactic(auto)]

ghost use Rattle.std.specs.Prelude.{◌≡◌, List, ℕ, ◌≤◌, length};
ghost use Rattle.rules.specs.Limit as Limit;
ghost use Rattle.layout.specs.Layout as Layout;
ghost use Rattle.layout.specs.Rows.{cash_of};
ghost use Rattle.call_steps.specs.Replies.{Replies};
ghost use Rattle.call_purse.specs.Calls.{Payable, Withdrawable, withdraw_run, deposit_run};

pub mod climb;
pub mod way;

use call_steps::request::{Given, Reply};
use climb::{climb_moves, climb_stops};
use layout::CASH;
use values::cash::Cash;
use values::refusal::Refusal;
use way::Way;

// Takes the sum from each moneyword on the climb from k and adds it once to the caller's cash; 9 where one is below it.
pub fn withdraw(links: &[u16], words: &mut [u32], me: usize, k: usize, sum: u32) -> Reply
    requires { Withdrawable links.now words.old me k sum }
    ensures { (b : List ℕ) → Replies result b links.now words.new
        (withdraw_run b links.now words.old me k sum) }
{
    if climb_stops(Way::Out, links, words, k, sum) {
        return Err(Refusal::TooLittle);
    }
    let cash = cash_of(words, me);
    climb_moves(Way::Out, links, words, k, sum);
    words[CASH + me] = cash.0 + sum;
    Ok(Given::done())
}

// Takes the sum from the caller's cash and adds it to each moneyword on the climb from k; 9 where the cash is below it,
// 10 where a moneyword would pass 4,294,967,295.
pub fn deposit(links: &[u16], words: &mut [u32], me: usize, k: usize, sum: u32) -> Reply
    requires { Payable links.now words.old me k }
    ensures { (b : List ℕ) → Replies result b links.now words.new
        (deposit_run b links.now words.old me k sum) }
{
    let cash = cash_of(words, me);
    if cash.below(sum) {
        return Err(Refusal::TooLittle);
    }
    if climb_stops(Way::Into, links, words, k, sum) {
        return Err(Refusal::Overflows);
    }
    climb_moves(Way::Into, links, words, k, sum);
    words[CASH + me] = cash.less(sum).0;
    Ok(Given::done())
}

// The cash of the process in slot o.
fn cash_of(words: &[u32], o: usize) -> Cash
    requires { (length words.now ≡ Layout.WORDS) × (1 ≤ o) × (o ≤ Limit.objects) }
    ensures { result.0 ≡ cash_of words.now o }
{
    Cash(words[CASH + o])
}
