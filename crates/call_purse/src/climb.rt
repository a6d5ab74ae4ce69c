// 01, "The climb takes the sum from each": recursion from a capability to its master through parent links; the depth
// left to the master falls.
ghost use Rattle.std.specs.Prelude.{◌≡◌, false, ◌≤◌, length};
ghost use Rattle.rules.specs.Limit as Limit;
ghost use Rattle.layout.specs.Layout as Layout;
ghost use Rattle.layout.specs.Rows.{parent_of, money_of};
ghost use Rattle.call_purse.specs.Climb.{Climbable, climb_stops, climb_moved};

use crate::way::Way;
use layout::{MONEY, PARENT};
use values::moneyword::Moneyword;

// Some moneyword from k up to its master stops the sum. Each call takes two steps of the climb.
pub fn climb_stops(way: Way, links: &[u16], words: &[u32], k: usize, sum: u32) -> bool
    requires { Climbable links.now words.now k }
    ensures { result ≡ climb_stops way links.now words.now k sum }
{
    if k == 0 {
        return false;
    }
    if way.stops(purse(words, k), sum) {
        return true;
    }
    let up = above(links, k);
    if up == 0 {
        return false;
    }
    if way.stops(purse(words, up), sum) {
        return true;
    }
    climb_stops(way, links, words, above(links, up), sum)
}

// Moves the sum out of each moneyword from k up to its master, or into each.
pub(crate) fn climb_moves(way: Way, links: &[u16], words: &mut [u32], k: usize, sum: u32)
    requires { (Climbable links.now words.old k) × (climb_stops way links.now words.old k sum ≡ false) }
    ensures { words.new ≡ climb_moved way links.now words.old k sum }
{
    if k == 0 {
        return;
    }
    let m = way.moves(purse(words, k), sum);
    let up = above(links, k);
    if up == 0 {
        words[MONEY + k] = m.0;
        return;
    }
    let n = way.moves(purse(words, up), sum);
    climb_moves(way, links, words, above(links, up), sum);
    words[MONEY + up] = n.0;
    words[MONEY + k] = m.0;
}

// The slot above k, 0 above a master.
fn above(links: &[u16], k: usize) -> usize
    requires { (length links.now ≡ Layout.LINKS) × (1 ≤ k) × (k ≤ Limit.caps) }
    ensures { result ≡ parent_of links.now k }
{
    usize::from(links[PARENT + k])
}

// The moneyword of the capability in slot k.
fn purse(words: &[u32], k: usize) -> Moneyword
    requires { (length words.now ≡ Layout.WORDS) × (1 ≤ k) × (k ≤ Limit.caps) }
    ensures { result.0 ≡ money_of words.now k }
{
    Moneyword(words[MONEY + k])
}
