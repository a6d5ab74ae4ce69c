// "its moneyword, cash and box sums go to the house": here moneyword becomes cash.
ghost use Rattle.std.specs.Prelude.{◌≡◌};
ghost use Rattle.call_ending.specs.Forfeit.{holdings, forfeited, ended_words, HoldsAsk, ForfeitAsks};

use layout::process::sums_from;
use layout::{CASH, COUNT, FLAG, HOUSE, MONEY};
use values::cash::Cash;
use values::limit::BOX_SLOTS;
use values::moneyword::Moneyword;

// Cash and box sums of the object in slot o.
fn holdings(bytes: &[u8], words: &[u32], o: usize) -> Cash
    requires { HoldsAsk bytes.now words.now o }
    ensures { result.0 ≡ holdings bytes.now words.now o }
{
    if bytes[FLAG + o] == 0 {
        return Cash(0);
    }
    let sums = sums_from(words, usize::from(bytes[COUNT + o]), o * BOX_SLOTS);
    // kept: `as` in holdings, where TryFrom would be a failure that HoldsAsk rules out
    Cash(words[CASH + o] + sums as u32)
}

// With the moneyword of its master m.
fn forfeit(bytes: &[u8], words: &[u32], o: usize, m: usize) -> Cash
    requires { ForfeitAsks bytes.now words.now o m }
    ensures { result.0 ≡ forfeited bytes.now words.now o m }
{
    let held = holdings(bytes, words, o);
    let purse = Moneyword(words[MONEY + m]);
    Cash(purse.0 + held.0)
}

// All that goes to the house.
pub(crate) fn to_house(bytes: &[u8], words: &mut [u32], o: usize, m: usize)
    requires { ForfeitAsks bytes.now words.old o m }
    ensures { words.new ≡ ended_words bytes.now words.old o m }
{
    let sum = forfeit(bytes, words, o, m);
    words[HOUSE] += sum.0;
}
