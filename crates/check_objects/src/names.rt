// No two objects have the same volume and serial. A hash table tells them apart: slots are entered from the last down,
// and each is compared only with those that were entered at the same place before it.
ghost use Rattle.std.specs.Prelude.{◌≡◌, ◌≤◌, ◌<◌};
ghost use Rattle.rules.specs.Limit;
ghost use Rattle.layout.specs.Decides.{Decides};
ghost use Rattle.layout.specs.Sizes.{BytesLinks};
ghost use Rattle.check_rows.specs.Buckets.{Buckets, Entered};
ghost use Rattle.check_objects.specs.Names.{SameName, name_place, name_keys};

use check_rows::table;
use layout::rows::field;
use layout::{MASTER, SERIAL, VOLUME};
use values::limit::MAX_OBJECTS;

// The place in the table of a name.
fn place_of(volume: u8, serial: u16) -> usize
    ensures { (result ≡ name_place volume serial) × (result < 128) }
{
    (usize::from(serial) * 49471 / 512 + usize::from(volume) * 73) % 128
}

// Slots o and q hold objects with the same name.
fn same_name(bytes: &[u8], links: &[u16], o: usize, q: usize) -> bool
    requires { BytesLinks bytes.now links.now }
    ensures { Decides (SameName bytes.now links.now o q) result }
{
    if field(links, MAX_OBJECTS, SERIAL, o) != field(links, MAX_OBJECTS, SERIAL, q) {
        return false;
    }
    if field(bytes, MAX_OBJECTS, VOLUME, o) != field(bytes, MAX_OBJECTS, VOLUME, q) {
        return false;
    }
    if field(links, MAX_OBJECTS, MASTER, o) == 0 {
        return false;
    }
    field(links, MAX_OBJECTS, MASTER, q) != 0
}

// No slot above o has the name of the object in slot o, by the table of the objects above o, which gets it too.
pub(crate) fn enter(
    bytes: &[u8],
    links: &[u16],
    heads: &mut [u16],
    next: &mut [u16],
    o: usize,
) -> bool
    requires sizes { BytesLinks bytes.now links.now }
    requires table { Buckets (name_keys bytes.now links.now) heads.old next.old o }
    requires slot { (1 ≤ o) × (o ≤ Limit.objects) }
    ensures { Entered (name_keys bytes.now links.now)
        (SameName bytes.now links.now) heads.new next.new o result }
{
    if field(links, MAX_OBJECTS, MASTER, o) == 0 {
        return true;
    }
    let serial = field(links, MAX_OBJECTS, SERIAL, o);
    let at = place_of(field(bytes, MAX_OBJECTS, VOLUME, o), serial);
    table::enter(heads, next, at, o, |q| same_name(bytes, links, o, q))
}
