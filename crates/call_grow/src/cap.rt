// A capability record is made by one function, which is given its moneyword.
ghost use Rattle.std.specs.Prelude.{◌≡◌, length};
ghost use Rattle.layout.specs.Layout as Layout;
ghost use Rattle.call_steps.specs.Tests.{CapSlot};
ghost use Rattle.call_grow.specs.Made.{cap_of, new_links, new_words, MakeAsks, Makes};

use layout::{
    END, FIRST_CHILD, FREE_CAPS, LAST_DAY, MONEY, NEXT_CAP, OWNER, P1, P2, PARENT, PREV_CAP,
    RIGHTS, START,
};
use values::moneyword::Moneyword;
use values::rights::Rights;
use values::window::Window;

// A capability to be made: its object's slot, its parent's and its next sibling's, 0 for none.
#[derive(Clone, Copy)]
pub struct NewCap {
    pub object: u16,
    pub parent: u16,
    pub next: u16,
    pub rights: Rights,
    pub password: [u32; 2],
    pub window: Window,
    // 02, CR 9
    pub last_day: u16,
}

// The links of the record in slot i, the first free one.
fn write_links(links: &mut [u16], i: usize, x: NewCap)
    requires sized { length links.old ≡ Layout.LINKS }
    requires slot { CapSlot i }
    ensures { links.new ≡ new_links links.old i (cap_of x) x.next }
{
    links[FREE_CAPS] = links[NEXT_CAP + i];
    links[OWNER + i] = x.object;
    links[PARENT + i] = x.parent;
    links[FIRST_CHILD + i] = 0;
    links[NEXT_CAP + i] = x.next;
    links[PREV_CAP + i] = 0;
    links[RIGHTS + i] = x.rights.0;
    links[LAST_DAY + i] = x.last_day;
}

// Its words.
fn write_words(words: &mut [u32], i: usize, x: NewCap, moneyword: Moneyword)
    requires sized { length words.old ≡ Layout.WORDS }
    requires slot { CapSlot i }
    ensures { words.new ≡ new_words words.old i (cap_of x) moneyword.0 }
{
    let password = x.password;
    let window = x.window;
    words[P1 + i] = password[0];
    words[P2 + i] = password[1];
    words[START + i] = window.start;
    words[END + i] = window.end;
    words[MONEY + i] = moneyword.0;
}

// The first record of the free list leaves it and is written whole; its slot.
pub fn new_cap(links: &mut [u16], words: &mut [u32], x: NewCap, moneyword: Moneyword) -> usize
    requires { MakeAsks links.old words.old }
    ensures { Makes links.old words.old (cap_of x) x.next moneyword.0 result
        links.new words.new }
{
    let i = usize::from(links[FREE_CAPS]);
    write_links(links, i, x);
    write_words(words, i, x, moneyword);
    i
}
