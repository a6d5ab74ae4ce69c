// The fields of each capability, by slot: rights, a window and a last day, which lie in its parent's or are a master's.
#![tactic(auto)]

ghost use Rattle.std.specs.Prelude.{◌≡◌, length};
ghost use Rattle.layout.specs.Layout;
ghost use Rattle.layout.specs.Decides.{Decides};
ghost use Rattle.layout.specs.Sizes.{LinksWords};
ghost use Rattle.check_caps.specs.Parts.{CapMeets, Whole, InParent};

use layout::rows::field;
use layout::{END, LAST_DAY, OWNER, PARENT, RIGHTS, SIZE, START};
use values::limit::{MAX_CAPS, MAX_DAY, MAX_OBJECTS, MAX_RIGHTS};
use values::rights::Rights;

// The limits in the type of the links.
const ALL_RIGHTS: u16 = MAX_RIGHTS as u16;

const NO_END: u16 = MAX_DAY as u16;

// The window is the whole of object o, and the last day a master's.
fn is_whole(links: &[u16], i: usize, o: usize, start: u32, end: u32) -> bool
    requires { length links.now ≡ Layout.LINKS }
    ensures { Decides (Whole links.now i o start end) result }
{
    start == 0
        && field(links, MAX_CAPS, LAST_DAY, i) == NO_END
        && end == u32::from(field(links, MAX_OBJECTS, SIZE, o))
}

// The rights, the window and the last day of capability i lie in those of capability p.
fn is_within(links: &[u16], words: &[u32], i: usize, p: usize) -> bool
    requires { LinksWords links.now words.now }
    ensures { Decides (InParent links.now words.now i p) result }
{
    let rights = Rights(field(links, MAX_CAPS, RIGHTS, i));
    let both = rights.both(Rights(field(links, MAX_CAPS, RIGHTS, p)));
    if both.0 != rights.0 {
        return false;
    }
    let start = field(words, MAX_CAPS, START, i);
    if start < field(words, MAX_CAPS, START, p) {
        return false;
    }
    let end = field(words, MAX_CAPS, END, i);
    if end > field(words, MAX_CAPS, END, p) {
        return false;
    }
    field(links, MAX_CAPS, LAST_DAY, i) <= field(links, MAX_CAPS, LAST_DAY, p)
}

// The fields of slot i, if it holds a capability.
pub fn cap_fits(links: &[u16], words: &[u32], i: usize) -> bool
    requires { LinksWords links.now words.now }
    ensures { Decides (CapMeets links.now words.now i) result }
{
    let owner = usize::from(field(links, MAX_CAPS, OWNER, i));
    if owner == 0 {
        return true;
    }
    if field(links, MAX_CAPS, RIGHTS, i) > ALL_RIGHTS {
        return false;
    }
    let start = field(words, MAX_CAPS, START, i);
    let end = field(words, MAX_CAPS, END, i);
    if start > end {
        return false;
    }
    let parent = usize::from(field(links, MAX_CAPS, PARENT, i));
    if parent == 0 {
        return is_whole(links, i, owner, start, end);
    }
    is_within(links, words, i, parent)
}
