// The caller: an object found by its name, and refusal 3.
ghost use Rattle.std.specs.Prelude.{◌≡◌, List, ◌≢◌, ℕ, ◌≤◌, length};
ghost use Rattle.rules.specs.Limit as Limit;
ghost use Rattle.rules.specs.Store.{object_named};
ghost use Rattle.rules.specs.Refusals.{running};
ghost use Rattle.layout.specs.Layout;
ghost use Rattle.layout.specs.Rows.{master_of};
ghost use Rattle.layout.specs.View.{view};
ghost use Rattle.layout.specs.Sizes.{BytesLinks};
ghost use Rattle.call_steps.specs.Request.{name_of};
ghost use Rattle.call_steps.specs.Tests.{ObjectSlot, named, unmarked, slot_found};

use crate::groups::from_serial;
use crate::request::Name;
use layout::process::is_process;
use layout::{MASTER, SERIAL, SUSPENDED, TERMINATED, VOLUME, WAITING};

// Slot o holds a living object of this name.
fn is_named(bytes: &[u8], links: &[u16], o: usize, name: Name) -> bool
    requires fact_1 { BytesLinks bytes.now links.now }
    requires fact_2 { ObjectSlot o }
    ensures { (w : List ℕ) → result ≡ named (view bytes.now links.now w) (name_of name) o }
{
    u32::from(links[SERIAL + o]) == name.serial
        && u32::from(bytes[VOLUME + o]) == name.volume
        && links[MASTER + o] != 0
}

// The slot of the object with this name.
pub fn find_object(bytes: &[u8], links: &[u16], name: Name) -> Option<usize>
    requires { BytesLinks bytes.now links.now }
    ensures { (w : List ℕ)
        → result ≡ slot_found (object_named (view bytes.now links.now w) (name_of name)) }
{
    let last = from_serial(links, name.serial);
    for o in (1..last + 1).rev() {
        if is_named(bytes, links, o, name) {
            return Some(o);
        }
    }
    None
}

// No mark of slot o is set.
fn is_unmarked(bytes: &[u8], o: usize) -> bool
    requires fact_1 { length bytes.now ≡ Layout.BYTES }
    requires fact_2 { ObjectSlot o }
    ensures { result ≡ unmarked bytes.now o }
{
    bytes[SUSPENDED + o] == 0 && bytes[WAITING + o] == 0 && bytes[TERMINATED + o] == 0
}

// Slot me holds a process that is not suspended, waiting or terminated.
pub fn running(bytes: &[u8], links: &[u16], me: usize) -> bool
    requires fact_1 { BytesLinks bytes.now links.now }
    requires fact_2 { me ≤ Limit.objects }
    ensures { (w : List ℕ) → result ≡ running (view bytes.now links.now w) me }
{
    me != 0 && is_process(bytes, links, me) && is_unmarked(bytes, me)
}

// The name of the living object in slot o.
pub fn name_at(bytes: &[u8], links: &[u16], o: usize) -> Name
    requires fact_1 { BytesLinks bytes.now links.now }
    requires fact_2 { ObjectSlot o }
    requires fact_3 { master_of links.now o ≢ 0 }
    ensures { (w : List ℕ) → name_of result ≡ ((view bytes.now links.now w).object o).name }
{
    Name {
        volume: u32::from(bytes[VOLUME + o]),
        serial: u32::from(links[SERIAL + o]),
    }
}
