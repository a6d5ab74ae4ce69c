// 02, CR 10, the free question: "the place, counted from 1, of the first one in its list from which some derive_cap gives a
// capability with exactly those rights, window and last day and the sum as moneyword". Whether some does is decided by comparing these
// and by a climb. The slices are only read.
#![tactic(auto)]

ghost use Rattle.std.specs.Prelude.{◌≡◌, true, List, ℕ, ◌≤◌, leb, length};
ghost use Rattle.rules.specs.Limit as Limit;
ghost use Rattle.rules.specs.Questions.{entries, entry, wish_fits, unlent, LendAsked};
ghost use Rattle.rules.specs.Theorems.{lendable};
ghost use Rattle.layout.specs.Layout;
ghost use Rattle.layout.specs.View.{view};
ghost use Rattle.layout.specs.WellFormed.{Plain};
ghost use Rattle.call_purse.specs.Climb.{Climbable};
ghost use Rattle.call_steps.specs.Request.{name_of, capability_of};
ghost use Rattle.call_steps.specs.Run.{Process, Held};
ghost use Rattle.question_lend.specs.Asks.{wish_of, lent_of, Asks};
ghost use Rattle.question_lend.specs.Places.{will_do, Finds};

mod list;

use call_purse::climb::climb_stops;
use call_purse::way::Way;
use call_steps::objects::{find_object, running};
use call_steps::present::{admit, right_held};
use call_steps::ranges::{derive_fits, name_fits};
use call_steps::request::{Capability, Name};
use call_steps::target::window_at;
use kernel_check::check;
use layout::LAST_DAY;
use list::{entry_at, list_fits};
use values::limit::ENTRY_NUMBERS;
use values::refusal::Refusal;
use values::rights::Rights;
use values::window::Window;

// What is to be lent.
#[derive(Clone, Copy)]
pub struct Wish {
    pub rights: u32,
    pub window: Window,
    pub sum: u32,
    pub last_day: u32,
}

// The last day of the capability in slot k is not before this one.
fn lasts(links: &[u16], k: usize, last_day: u32) -> bool
    requires fact_1 { length links.now ≡ Layout.LINKS }
    requires fact_2 { Held links.now k }
    ensures { (b w : List ℕ) → result ≡ leb last_day ((view b links.now w).cap k).last_day }
{
    last_day <= u32::from(links[LAST_DAY + k])
}

// The capability in slot k has the rights, the window, the last day and, up to its master, the money.
fn lendable(links: &[u16], words: &[u32], k: usize, x: Wish) -> bool
    requires fact_1 { Climbable links.now words.now k }
    requires fact_2 { Held links.now k }
    requires fact_3 { wish_fits (wish_of x) ≡ true }
    ensures { (b : List ℕ) → Plain b links.now words.now
        → result ≡ lendable (view b links.now words.now) k (wish_of x) }
{
    right_held(links, k, Rights(x.rights as u16))
        && window_at(words, k).holds(x.window)
        && lasts(links, k, x.last_day)
        && !climb_stops(Way::Out, links, words, k, x.sum)
}

// The process in slot me presents the entry, and can lend the wish from it.
fn will_do(bytes: &[u8], links: &[u16], words: &[u32], me: usize, e: Capability, x: Wish) -> bool
    requires fact_1 { Plain bytes.now links.now words.now }
    requires fact_2 { Process bytes.now links.now me }
    requires fact_3 { wish_fits (wish_of x) ≡ true }
    ensures { result
        ≡ will_do (view bytes.now links.now words.now) me (wish_of x) (capability_of e) }
{
    match admit(bytes, links, words, me, e, Rights::DERIVE_CAP) {
        Ok(k) => lendable(links, words, k, x),
        Err(_) => false,
    }
}

// The first place whose entry will do.
fn first_place(
    bytes: &[u8],
    links: &[u16],
    words: &[u32],
    list: &[u32],
    me: usize,
    x: Wish,
) -> Option<usize>
    requires fact_1 { Plain bytes.now links.now words.now }
    requires fact_2 { Process bytes.now links.now me }
    requires fact_3 { wish_fits (wish_of x) ≡ true }
    requires fact_4 { entries list.now ≤ Limit.entries }
    ensures { Finds (entries list.now)
        (λ place. will_do (view bytes.now links.now words.now) me (wish_of x)
        (entry list.now place)) result }
{
    for place in 1..=list.len() / ENTRY_NUMBERS {
        if will_do(bytes, links, words, me, entry_at(list, place), x) {
            return Some(place);
        }
    }
    None
}

// The question, on a store that is known to be plain.
fn lend_of(
    bytes: &[u8],
    links: &[u16],
    words: &[u32],
    list: &[u32],
    caller: Name,
    x: Wish,
) -> Result<u32, Refusal>
    requires { Plain bytes.now links.now words.now }
    ensures { LendAsked (view bytes.now links.now words.now)
        (name_of caller) list.now (wish_of x) (lent_of result) }
{
    if !name_fits(caller) || !list_fits(list) || !derive_fits(x.rights, x.window, x.last_day) {
        return Err(Refusal::OutOfRange);
    }
    let Some(me) = find_object(bytes, links, caller) else {
        return Err(Refusal::NotRunning);
    };
    if !running(bytes, links, me) {
        return Err(Refusal::NotRunning);
    }
    match first_place(bytes, links, words, list, me, x) {
        Some(place) => Ok(place as u32),
        None => Err(Refusal::NoneWillDo),
    }
}

// The same on slices of any length and content.
pub fn ask_lend(
    bytes: &[u8],
    links: &[u16],
    words: &[u32],
    list: &[u32],
    caller: Name,
    x: Wish,
) -> Result<u32, Refusal>
    ensures { Asks bytes.now links.now words.now list.now caller x result }
{
    if !check(bytes, links, words) {
        return Err(Refusal::IllFormed);
    }
    lend_of(bytes, links, words, list, caller, x)
}
