// 02, CR 3, the free question: "the window of a capability presented by a caller, under READ". The slices are only read.
#![tactic(auto)]

ghost use Rattle.std.specs.Prelude.{◌≡◌};
ghost use Rattle.rules.specs.Questions.{window_asked};
ghost use Rattle.layout.specs.View.{view};
ghost use Rattle.layout.specs.WellFormed.{Plain};
ghost use Rattle.call_steps.specs.Request.{name_of, capability_of};
ghost use Rattle.question_window.specs.Asks.{windowed_of, Asks};

use call_steps::objects::{find_object, running};
use call_steps::present::admit;
use call_steps::ranges::name_fits;
use call_steps::request::{Capability, Name};
use call_steps::target::window_at;
use kernel_check::check;
use values::refusal::Refusal;
use values::rights::Rights;
use values::window::Window;

// The caller presents a capability, on a store that is known to be plain.
pub fn window_of(
    bytes: &[u8],
    links: &[u16],
    words: &[u32],
    caller: Name,
    x: Capability,
) -> Result<Window, Refusal>
    requires { Plain bytes.now links.now words.now }
    ensures { windowed_of result
        ≡ window_asked (view bytes.now links.now words.now) (name_of caller) (capability_of x) }
{
    if !name_fits(caller) || !name_fits(x.name) {
        return Err(Refusal::OutOfRange);
    }
    let Some(me) = find_object(bytes, links, caller) else {
        return Err(Refusal::NotRunning);
    };
    if !running(bytes, links, me) {
        return Err(Refusal::NotRunning);
    }
    let k = admit(bytes, links, words, me, x, Rights::READ)?;
    Ok(window_at(words, k))
}

// The same on slices of any length and content.
pub fn ask_window(
    bytes: &[u8],
    links: &[u16],
    words: &[u32],
    caller: Name,
    x: Capability,
) -> Result<Window, Refusal>
    ensures { Asks bytes.now links.now words.now caller x result }
{
    if !check(bytes, links, words) {
        return Err(Refusal::IllFormed);
    }
    window_of(bytes, links, words, caller, x)
}
