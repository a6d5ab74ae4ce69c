// Refusals 2, 3 and 4, the fee, then 5, 19 and 6.
ghost use Rattle.std.specs.Prelude.{◌≡◌, List, ℕ, length};
ghost use Rattle.rules.specs.Rights.{op};
ghost use Rattle.layout.specs.WellFormed.{Plain};
ghost use Rattle.call_steps.specs.Request.{capability_of, call_of};
ghost use Rattle.call_steps.specs.Run.{Process};
ghost use Rattle.call_enter.specs.Entry.{shown, entry};
ghost use Rattle.call_enter.specs.Enters.{entry_of, untold};

use call_steps::objects::{find_object, running};
use call_steps::pay::pay;
use call_steps::present::admit;
use call_steps::ranges::{in_range, presents};
use call_steps::request::{Capability, Request};
use values::fees::fee_of;
use values::refusal::Refusal;
use values::rights::Rights;

// The caller's slot, and that of the capability presented, 0 where the call presents none.
#[derive(Clone, Copy, Debug, PartialEq, Eq)]
pub struct Entered {
    pub me: usize,
    pub slot: usize,
}

// A refusal, and the slots as they were found; 2, 3 and 4 tell none.
#[derive(Clone, Copy, Debug, PartialEq, Eq)]
pub struct Stopped {
    pub refusal: Refusal,
    pub slots: Entered,
}

impl From<Stopped> for Refusal {
    ghost from_gives = { λ x r. r ≡ x.refusal };

    fn from(stopped: Stopped) -> Refusal {
        stopped.refusal
    }
}

// 2, 3 or 4.
impl From<Refusal> for Stopped {
    ghost from_gives = { λ r x. x ≡ untold r };

    fn from(refusal: Refusal) -> Stopped {
        Stopped {
            refusal,
            slots: Entered { me: 0, slot: 0 },
        }
    }
}

// 5, 19 and 6, where the call with this number presents a capability; slot me is the caller's.
fn show(
    bytes: &[u8],
    links: &[u16],
    words: &[u32],
    me: usize,
    number: u32,
    x: Capability,
) -> Result<Entered, Stopped>
    requires plain { Plain bytes.now links.now words.now }
    requires process { Process bytes.now links.now me }
    ensures { entry_of result bytes.now words.now
        ≡ shown bytes.now links.now words.now me (capability_of x) (op number) }
{
    if !presents(number) {
        return Ok(Entered { me, slot: 0 });
    }
    match admit(bytes, links, words, me, x, Rights::asked(number)) {
        Ok(slot) => Ok(Entered { me, slot }),
        Err(denied) => Err(Stopped {
            refusal: denied.refusal,
            slots: Entered {
                me,
                slot: denied.slot,
            },
        }),
    }
}

// Any call, up to its own part; `text`, `buffer` and `scratch` are the lengths of the lent slices.
pub fn enter(
    bytes: &mut [u8],
    links: &[u16],
    words: &mut [u32],
    req: Request,
    text: usize,
    buffer: usize,
    scratch: usize,
) -> Result<Entered, Stopped>
    requires { Plain bytes.old links.now words.old }
    ensures { (d : List ℕ) → length d ≡ text → entry_of result bytes.new words.new
        ≡ entry bytes.old links.now words.old (call_of req d buffer scratch) }
{
    if !in_range(req, text, buffer, scratch) {
        return Err(Stopped::from(Refusal::OutOfRange));
    }
    let Some(me) = find_object(bytes, links, req.caller) else {
        return Err(Stopped::from(Refusal::NotRunning));
    };
    if !running(bytes, links, me) {
        return Err(Stopped::from(Refusal::NotRunning));
    }
    let fee = fee_of(req.number);
    pay(bytes, words, me, fee)?;
    show(bytes, links, words, me, req.number, req.presented)
}
