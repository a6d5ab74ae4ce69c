// Refusal 7, "the range is not inside the window", and where the object's blocks start.
ghost use Rattle.std.specs.Prelude.{◌≤◌, ◌≡◌, length};
ghost use Rattle.rules.specs.Limit as Limit;
ghost use Rattle.rules.specs.Calls.{lies_in};
ghost use Rattle.values.specs.Words.{window_of};
ghost use Rattle.layout.specs.Layout as Layout;
ghost use Rattle.layout.specs.Rows.{owner_of, first_block_of};
ghost use Rattle.call_steps.specs.Run.{Target, window_in};

use call_steps::target::{target, window_at};
use layout::FIRST_BLOCK;
use values::window::Window;

// The range lies in the window of the capability in slot k.
pub(crate) fn in_window(words: &[u32], k: usize, range: Window) -> bool
    requires { (length words.now ≡ Layout.WORDS) × (1 ≤ k) × (k ≤ Limit.caps) }
    ensures { result ≡ lies_in (window_of range) (window_in words.now k) }
{
    window_at(words, k).holds(range)
}

// The first block of the object that the capability in slot k is for.
pub(crate) fn first_block(links: &[u16], k: usize) -> usize
    requires { (length links.now ≡ Layout.LINKS) × Target links.now k }
    ensures { result ≡ first_block_of links.now (owner_of links.now k) }
{
    let o = target(links, k);
    usize::from(links[FIRST_BLOCK + o])
}
