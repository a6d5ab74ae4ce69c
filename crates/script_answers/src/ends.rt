// What is written for a bad line, line one among them, and the last line of the output.
ghost use Rattle.std.specs.Prelude.{ℕ, ◌+◌, ◌≤◌, List, [], ◌∷◌, length};
ghost use Rattle.rules.specs.Code as Code;
ghost use Rattle.layout.specs.View.{view};
ghost use Rattle.layout.specs.Sizes.{LinksWords};
ghost use Rattle.check_money.specs.Amount.{MastersAre};
ghost use Rattle.script_text.specs.Numeral.{line_of};
ghost use Rattle.script_text.specs.Pasted.{Put};
ghost use Rattle.script_answers.specs.Room.{REFUSAL, TOTALS};
ghost use Rattle.script_answers.specs.Ends.{totals_line, TotalsAsk};

use check_money::{all_boxes, all_cash, money_at};
use layout::HOUSE;
use script_text::write::{put_after, put_byte, put_line};
use values::limit::MAX_CAPS;
use values::refusal::Refusal;

// "A bad line .. is answered 2"; of line one, whose number is 0, "`0 2` is all it writes".
pub fn bad_line(out: &mut [u8], at: usize, number: u64) -> usize
    requires { at + REFUSAL ≤ length out.old }
    ensures { Put REFUSAL out.old at (line_of (number ∷ Code.out_of_range ∷ [])) out.new result }
{
    let others = [u32::from(Refusal::OutOfRange)];
    put_line(out, at, number, &others)
}

// The masters' moneywords.
fn all_masters(links: &[u16], words: &[u32]) -> u64
    requires { LinksWords links.now words.now }
    ensures { (b : List ℕ) → MastersAre b links.now words.now result }
{
    let mut total: u64 = 0;
    for i in (1..=MAX_CAPS).rev() {
        total += u64::from(money_at(links, words, i).0);
    }
    total
}

// "Last `T` with cash, masters' moneywords, box sums, house."
pub fn totals_line(bytes: &[u8], links: &[u16], words: &[u32], out: &mut [u8], at: usize) -> usize
    requires { TotalsAsk bytes.now links.now words.now at out.old }
    ensures { Put TOTALS out.old at
        (totals_line (view bytes.now links.now words.now)) out.new result }
{
    let cash = all_cash(bytes, links, words);
    let masters = all_masters(links, words);
    let boxes = all_boxes(bytes, links, words);
    let house = words[HOUSE];
    let numbers = [cash as u32, masters as u32, boxes as u32, house];
    let p = put_byte(out, at, 84);
    let q = put_after(out, p, &numbers);
    put_byte(out, q, 10)
}
