// "cap_info: no more. Gives window length and moneyword."
ghost use Rattle.std.specs.Prelude.{ℕ, List};
ghost use Rattle.call_steps.specs.Replies.{Replies};
ghost use Rattle.call_marks.specs.Runs.{InfoAsks, info_run};

use call_steps::request::{Given, Reply};
use layout::{END, MONEY, START};
use values::moneyword::Moneyword;

// Of the capability in slot k.
pub fn cap_info(words: &[u32], k: usize) -> Reply
    requires { InfoAsks words.now k }
    ensures { (b l : List ℕ) → Replies result b l words.now (info_run b l words.now k) }
{
    let start = words[START + k];
    let end = words[END + k];
    let money = words[MONEY + k];
    Ok(Given::tells(end - start, Moneyword(money)))
}
