// 02, CR 8, the free question: how many passwords, "presented by a named process for one object and one right, would get past
// 5 and 6", and since CR 9 past 19. There are as many as capabilities of the object that are not expired and hold the right, and
// these are counted. The slices are only read.
#![tactic(auto)]

ghost use Rattle.std.specs.Prelude.{◌≡◌, ◌≢◌, List, ℕ, length};
ghost use Rattle.rules.specs.Questions.{passwords_asked};
ghost use Rattle.layout.specs.Layout;
ghost use Rattle.layout.specs.View.{view};
ghost use Rattle.layout.specs.WellFormed.{Plain};
ghost use Rattle.call_steps.specs.Request.{name_of};
ghost use Rattle.call_steps.specs.Tests.{CapSlot};
ghost use Rattle.question_count.specs.Holding.{holds, holding_at};
ghost use Rattle.question_count.specs.Asks.{counted_of, Asks};

use call_steps::objects::find_object;
use call_steps::present::{expired, right_held};
use call_steps::ranges::name_fits;
use call_steps::request::Name;
use kernel_check::check;
use layout::OWNER;
use layout::process::is_process;
use values::limit::MAX_CAPS;
use values::refusal::Refusal;
use values::rights::Rights;

// Slot i holds a capability of the object in slot o that is not expired and holds the right.
fn holds(links: &[u16], i: usize, o: usize, right: Rights) -> bool
    requires sized { length links.now ≡ Layout.LINKS }
    requires slot { CapSlot i }
    requires some { o ≢ 0 }
    ensures { (b w : List ℕ) → result ≡ holds (view b links.now w) o right.0 i }
{
    usize::from(links[OWNER + i]) == o && !expired(links, i) && right_held(links, i, right)
}

// How many capabilities of the object in slot o are not expired and hold the right.
fn held(links: &[u16], o: usize, right: Rights) -> u32
    requires sized { length links.now ≡ Layout.LINKS }
    requires some { o ≢ 0 }
    ensures { (b w : List ℕ) → result ≡ holding_at (view b links.now w) o right.0 }
{
    let mut count = 0;
    for i in 1..=MAX_CAPS {
        if holds(links, i, o, right) {
            count += 1;
        }
    }
    count
}

// The question, on a store that is known to be plain.
pub fn count_of(
    bytes: &[u8],
    links: &[u16],
    words: &[u32],
    caller: Name,
    object: Name,
    right: u32,
) -> Result<u32, Refusal>
    requires { Plain bytes.now links.now words.now }
    ensures { counted_of result
        ≡ passwords_asked (view bytes.now links.now words.now) (name_of caller) (name_of object) right }
{
    if !Rights::is_right(right) || !name_fits(caller) || !name_fits(object) {
        return Err(Refusal::OutOfRange);
    }
    let Some(me) = find_object(bytes, links, caller) else {
        return Err(Refusal::NotRunning);
    };
    if !is_process(bytes, links, me) {
        return Err(Refusal::NotRunning);
    }
    let Some(o) = find_object(bytes, links, object) else {
        return Ok(0);
    };
    Ok(held(links, o, Rights(right as u16)))
}

// The same on slices of any length and content.
pub fn ask_count(
    bytes: &[u8],
    links: &[u16],
    words: &[u32],
    caller: Name,
    object: Name,
    right: u32,
) -> Result<u32, Refusal>
    ensures { Asks bytes.now links.now words.now caller object right result }
{
    if !check(bytes, links, words) {
        return Err(Refusal::IllFormed);
    }
    count_of(bytes, links, words, caller, object, right)
}
