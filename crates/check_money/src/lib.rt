// The money total: all cash, all masters' moneywords, all sums in boxes, and the house.
#![tactic(auto)]

ghost use Rattle.std.specs.Prelude.{◌≡◌, List, ℕ, ◌≤◌};
ghost use Rattle.rules.specs.Limit;
ghost use Rattle.layout.specs.View.{view};
ghost use Rattle.layout.specs.WellFormed.{Sized};
ghost use Rattle.layout.specs.Fields.{TotalFits};
ghost use Rattle.layout.specs.Decides.{Decides};
ghost use Rattle.layout.specs.Sizes.{LinksWords};
ghost use Rattle.check_money.specs.Amount.{CashIs, MastersAre, BoxIs, BoxesAre, master_money};

use layout::process::{is_process, sums_from};
use layout::rows::field;
use layout::{CASH, COUNT, HOUSE, MONEY, OWNER, PARENT};
use values::cash::Cash;
use values::limit::{BOX_SLOTS, MAX_CAPS, MAX_OBJECTS, MAX_WORD};
use values::moneyword::Moneyword;

// Of sums in 64 bits.
const MAX_TOTAL: u64 = MAX_WORD as u64;

// The cash of slot o, 0 if it holds no process.
fn cash_at(bytes: &[u8], links: &[u16], words: &[u32], o: usize) -> Cash
    requires sizes { Sized bytes.now links.now words.now }
    requires slot { o ≤ Limit.objects }
    ensures { result.0 ≡ (view bytes.now links.now words.now).cash o }
{
    if is_process(bytes, links, o) {
        return Cash(field(words, MAX_OBJECTS, CASH, o));
    }
    Cash(0)
}

pub fn all_cash(bytes: &[u8], links: &[u16], words: &[u32]) -> u64
    requires { Sized bytes.now links.now words.now }
    ensures { CashIs bytes.now links.now words.now result }
{
    let mut total: u64 = 0;
    for o in (1..=MAX_OBJECTS).rev() {
        total += u64::from(cash_at(bytes, links, words, o).0);
    }
    total
}

// The moneyword of slot i, 0 if it holds no master.
pub fn money_at(links: &[u16], words: &[u32], i: usize) -> Moneyword
    requires { LinksWords links.now words.now }
    ensures { (b : List ℕ) → result.0 ≡ master_money (view b links.now words.now) i }
{
    if field(links, MAX_CAPS, OWNER, i) == 0 {
        return Moneyword(0);
    }
    if field(links, MAX_CAPS, PARENT, i) != 0 {
        return Moneyword(0);
    }
    Moneyword(field(words, MAX_CAPS, MONEY, i))
}

// The sums in the box of slot o, 0 if it holds no process.
fn box_at(bytes: &[u8], links: &[u16], words: &[u32], o: usize) -> u64
    requires sizes { Sized bytes.now links.now words.now }
    requires slot { o ≤ Limit.objects }
    ensures { BoxIs bytes.now links.now words.now o result }
{
    if is_process(bytes, links, o) {
        let count = usize::from(field(bytes, MAX_OBJECTS, COUNT, o));
        return sums_from(words, count, o * BOX_SLOTS);
    }
    0
}

pub fn all_boxes(bytes: &[u8], links: &[u16], words: &[u32]) -> u64
    requires { Sized bytes.now links.now words.now }
    ensures { BoxesAre bytes.now links.now words.now result }
{
    let mut total: u64 = 0;
    for o in (1..=MAX_OBJECTS).rev() {
        total += box_at(bytes, links, words, o);
    }
    total
}

// The masters' part is given.
pub fn total_fits(bytes: &[u8], links: &[u16], words: &[u32], masters: u64) -> bool
    requires sizes { Sized bytes.now links.now words.now }
    requires given { MastersAre bytes.now links.now words.now masters }
    ensures { Decides (TotalFits bytes.now links.now words.now) result }
{
    let cash = all_cash(bytes, links, words);
    let boxes = all_boxes(bytes, links, words);
    let house = u64::from(words[HOUSE]);
    cash + masters + boxes + house <= MAX_TOTAL
}
