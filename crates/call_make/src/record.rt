// The record of a new object, slice by slice: "A new process is suspended, not waiting, not terminated, its box empty,
// its cash and lockword 0."
ghost use Rattle.std.specs.Prelude.{◌≡◌, length};
ghost use Rattle.layout.specs.Layout;
ghost use Rattle.call_steps.specs.Tests.{ObjectSlot};
ghost use Rattle.call_make.specs.Runs.{record_bytes, record_links, record_words};

use layout::{
    CASH, COUNT, FLAG, FREE_OBJECTS, LOCK1, LOCK2, MASTER, NEXT_OBJECT, OBJECTS, SERIAL, SIZE,
    SUSPENDED, TERMINATED, VOLUME, WAITING,
};

pub(crate) fn record_bytes(bytes: &mut [u8], o: usize, volume: u8, flag: u8)
    requires sized { length bytes.old ≡ Layout.BYTES }
    requires slot { ObjectSlot o }
    ensures { bytes.new ≡ record_bytes bytes.old o volume flag }
{
    bytes[VOLUME + o] = volume;
    bytes[FLAG + o] = flag;
    bytes[SUSPENDED + o] = 1;
    bytes[WAITING + o] = 0;
    bytes[TERMINATED + o] = 0;
    bytes[COUNT + o] = 0;
}

// The slot leaves the chain of free objects for that of objects; its master is to be in slot `master`.
pub(crate) fn record_links(links: &mut [u16], o: usize, serial: u16, size: u16, master: u16)
    requires sized { length links.old ≡ Layout.LINKS }
    requires slot { ObjectSlot o }
    ensures { links.new ≡ record_links links.old o serial size master }
{
    let next = links[NEXT_OBJECT + o];
    let first = links[OBJECTS];
    links[FREE_OBJECTS] = next;
    links[NEXT_OBJECT + o] = first;
    links[OBJECTS] = o as u16;
    links[SERIAL + o] = serial;
    links[SIZE + o] = size;
    links[MASTER + o] = master;
}

pub(crate) fn record_words(words: &mut [u32], o: usize)
    requires sized { length words.old ≡ Layout.WORDS }
    requires slot { ObjectSlot o }
    ensures { words.new ≡ record_words words.old o }
{
    words[CASH + o] = 0;
    words[LOCK1 + o] = 0;
    words[LOCK2 + o] = 0;
}
