// The list of a question: volume, serial, p1 and p2 of each entry, at places counted from 1.
ghost use Rattle.std.specs.Prelude.{◌≡◌, not, ◌≤◌};
ghost use Rattle.rules.specs.Limit as Limit;
ghost use Rattle.rules.specs.Slots.{some};
ghost use Rattle.rules.specs.Refusals.{name_fits};
ghost use Rattle.rules.specs.Questions.{entries, entry, list_fits};
ghost use Rattle.call_steps.specs.Request.{capability_of};
ghost use Rattle.question_lend.specs.Places.{Place};

use call_steps::numbers::capability_at;
use call_steps::ranges::name_fits;
use call_steps::request::Capability;
use values::limit::{ENTRY_NUMBERS, MAX_ENTRIES};

// The entry at a place.
pub fn entry_at(list: &[u32], place: usize) -> Capability
    requires { Place list.now place }
    ensures { capability_of result ≡ entry list.now place }
{
    capability_at(list, ENTRY_NUMBERS * (place - 1))
}

// The name of each entry is in range.
fn names_fit(list: &[u32]) -> bool
    requires { entries list.now ≤ Limit.entries }
    ensures { result ≡ not (some (entries list.now)
        (λ place. not (name_fits (entry list.now place).name))) }
{
    for place in 1..=list.len() / ENTRY_NUMBERS {
        if !name_fits(entry_at(list, place).name) {
            return false;
        }
    }
    true
}

// The list has up to 32 entries, each whole and its name in range.
pub fn list_fits(list: &[u32]) -> bool
    ensures { result ≡ list_fits list.now }
{
    list.len() % ENTRY_NUMBERS == 0 && list.len() / ENTRY_NUMBERS <= MAX_ENTRIES && names_fit(list)
}
