// What a new object is made of: its blocks, its record and its master. "Its master has the whole window, moneyword 0 and
// the rights given." 02, CR 9, of last days: "A master's is 65,535."
ghost use Rattle.values.specs.Words.{password_of};
ghost use Rattle.call_steps.specs.Request.{name_of};
ghost use Rattle.call_make.specs.Runs.{MasterAsks, IsNewMaster, HoldAsks, TakesBlocks, RecordAsks, Records, PlaceAsks};
ghost use Rattle.call_make.specs.Runs.{Places};

use crate::record::{record_bytes, record_links, record_words};
use call_blocks::clear::clear;
use call_blocks::take::take;
use call_grow::cap::{NewCap, new_cap};
use call_steps::request::Request;
use layout::FREE_CAPS;
use values::blocks::blocks_of;
use values::limit::MAX_DAY;
use values::moneyword::Moneyword;
use values::rights::Rights;
use values::window::Window;

const MASTERS_LAST_DAY: u16 = MAX_DAY as u16;

// The master of the object in slot o.
fn master_of(o: usize, req: Request) -> NewCap
    requires { MasterAsks o req.rights }
    ensures { IsNewMaster o req.size req.rights (password_of req.drawn) result }
{
    let drawn = req.drawn;
    // kept: `as` in master_of and record, where TryFrom would be a failure that MasterAsks and RecordAsks rule out
    NewCap {
        object: o as u16,
        parent: 0,
        next: 0,
        rights: Rights(req.rights as u16),
        password: drawn,
        window: Window {
            start: 0,
            end: req.size,
        },
        last_day: MASTERS_LAST_DAY,
    }
}

// The object in slot o takes the blocks that its size needs, all zero.
fn hold(bytes: &mut [u8], links: &mut [u16], o: usize, size: u32)
    requires { HoldAsks bytes.old links.old o size }
    ensures { TakesBlocks bytes.old links.old o size bytes.new links.new }
{
    let n = blocks_of(size) as usize;
    let last = clear(bytes, links, n);
    take(links, o, n, last);
}

// Its record, with the slot of its master.
fn record(
    bytes: &mut [u8],
    links: &mut [u16],
    words: &mut [u32],
    o: usize,
    req: Request,
    master: u16,
)
    requires { RecordAsks bytes.old links.old words.old o (name_of req.name) req.size req.flag }
    ensures { Records bytes.old links.old words.old o (name_of req.name) req.size
        req.flag master bytes.new links.new words.new }
{
    let name = req.name;
    record_bytes(bytes, o, name.volume as u8, req.flag as u8);
    record_links(links, o, name.serial as u16, req.size as u16, master);
    record_words(words, o);
}

// All of the object in slot o, and its master.
pub(crate) fn place(bytes: &mut [u8], links: &mut [u16], words: &mut [u32], o: usize, req: Request)
    requires { PlaceAsks bytes.old links.old words.old o (name_of req.name) req.size req.flag
        req.rights }
    ensures { Places bytes.old links.old words.old o (name_of req.name)
        req.size req.flag req.rights (password_of req.drawn)
        bytes.new links.new words.new }
{
    let free = links[FREE_CAPS];
    hold(bytes, links, o, req.size);
    record(bytes, links, words, o, req, free);
    new_cap(links, words, master_of(o, req), Moneyword(0));
}
