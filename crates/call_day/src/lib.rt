// 02, CR 9: "The host sets the day by call 17, which has no caller and no fee".
#![tactic(auto)]

ghost use Rattle.std.specs.Prelude.{ℕ, ◌≡◌, List, length};
ghost use Rattle.layout.specs.Layout;
ghost use Rattle.call_steps.specs.Replies.{Replies};
ghost use Rattle.call_day.specs.Runs.{day_run};

use call_steps::request::{Given, Reply};
use layout::DAY;
use values::limit::MAX_DAY;
use values::refusal::Refusal;

// 2 the day is above 65,535; 20 it is before the store's.
pub fn set_day(links: &mut [u16], day: u32) -> Reply
    requires { length links.old ≡ Layout.LINKS }
    ensures { (b w : List ℕ) → Replies result b links.new w (day_run b links.old w day) }
{
    if day > MAX_DAY {
        return Err(Refusal::OutOfRange);
    }
    let new = day as u16;
    if new < links[DAY] {
        return Err(Refusal::EarlierDay);
    }
    links[DAY] = new;
    Ok(Given::done())
}
