// Of a capability: the object that it is for, and its window.
ghost use Rattle.std.specs.Prelude.{◌≡◌, length};
ghost use Rattle.values.specs.Words.{window_of};
ghost use Rattle.layout.specs.Layout;
ghost use Rattle.layout.specs.Rows.{owner_of};
ghost use Rattle.call_steps.specs.Run.{Held, window_in};
ghost use Rattle.call_steps.specs.Tests.{CapSlot};

use layout::{END, OWNER, START};
use values::window::Window;

// The object's slot; k is the capability's.
pub fn target(links: &[u16], k: usize) -> usize
    requires fact_1 { length links.now ≡ Layout.LINKS }
    requires fact_2 { Held links.now k }
    ensures { result ≡ owner_of links.now k }
{
    usize::from(links[OWNER + k])
}

// The window.
pub fn window_at(words: &[u32], k: usize) -> Window
    requires fact_1 { length words.now ≡ Layout.WORDS }
    requires fact_2 { CapSlot k }
    ensures { window_of result ≡ window_in words.now k }
{
    Window {
        start: words[START + k],
        end: words[END + k],
    }
}
