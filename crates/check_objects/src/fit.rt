// The fields of each object, by slot: volume, size, flag, and of a process its marks, lockword and box.
ghost use Rattle.std.specs.Prelude.{◌≡◌, ◌≤◌, length};
ghost use Rattle.rules.specs.Limit;
ghost use Rattle.layout.specs.Layout;
ghost use Rattle.layout.specs.WellFormed.{Sized};
ghost use Rattle.layout.specs.Fields.{ProcessFits};
ghost use Rattle.layout.specs.Decides.{Decides};
ghost use Rattle.layout.specs.Sizes.{BytesWords};
ghost use Rattle.check_objects.specs.Parts.{ObjectMeets, LengthsFit};

use layout::rows::field;
use layout::{
    COUNT, FLAG, LENGTH, LOCK1, MASTER, MESSAGE_SLOTS, SIZE, SUSPENDED, TERMINATED, VOLUME, WAITING,
};
use values::limit::{BOX_SLOTS, MAX_MESSAGE, MAX_MESSAGES, MAX_OBJECTS, MAX_SIZE, MAX_VOLUME, TOP};

// The limits in the types of the cells.
const MESSAGE: u8 = MAX_MESSAGE as u8;

const VOLUMES: u8 = MAX_VOLUME as u8;

const SIZES: u16 = MAX_SIZE as u16;

// Each message in the box of object o has 16 bytes at the most.
fn lengths_fit(bytes: &[u8], o: usize) -> bool
    requires { (length bytes.now ≡ Layout.BYTES) × (o ≤ Limit.objects) }
    ensures { Decides (LengthsFit bytes.now o) result }
{
    let count = usize::from(field(bytes, MAX_OBJECTS, COUNT, o));
    for m in (0..count).rev() {
        if field(bytes, MESSAGE_SLOTS, LENGTH, o * BOX_SLOTS + m) > MESSAGE {
            return false;
        }
    }
    true
}

// The fields of a process.
fn process_fits(bytes: &[u8], words: &[u32], o: usize) -> bool
    requires sizes { BytesWords bytes.now words.now }
    requires slot { o ≤ Limit.objects }
    ensures { Decides (ProcessFits bytes.now words.now o) result }
{
    let suspended = field(bytes, MAX_OBJECTS, SUSPENDED, o);
    if suspended > 1 {
        return false;
    }
    let waiting = field(bytes, MAX_OBJECTS, WAITING, o);
    if waiting > 1 {
        return false;
    }
    let terminated = field(bytes, MAX_OBJECTS, TERMINATED, o);
    if terminated > 1 {
        return false;
    }
    let lock = field(words, MAX_OBJECTS, LOCK1, o);
    if lock >= TOP {
        return false;
    }
    let count = field(bytes, MAX_OBJECTS, COUNT, o);
    if count > MAX_MESSAGES {
        return false;
    }
    lengths_fit(bytes, o)
}

// The fields of slot o, if it holds an object.
pub(crate) fn object_fits(bytes: &[u8], links: &[u16], words: &[u32], o: usize) -> bool
    requires sizes { Sized bytes.now links.now words.now }
    requires slot { o ≤ Limit.objects }
    ensures { Decides (ObjectMeets bytes.now links.now words.now o) result }
{
    let master = field(links, MAX_OBJECTS, MASTER, o);
    if master == 0 {
        return true;
    }
    let volume = field(bytes, MAX_OBJECTS, VOLUME, o);
    if volume > VOLUMES {
        return false;
    }
    let size = field(links, MAX_OBJECTS, SIZE, o);
    if size > SIZES {
        return false;
    }
    let flag = field(bytes, MAX_OBJECTS, FLAG, o);
    if flag > 1 {
        return false;
    }
    if flag == 0 {
        return true;
    }
    process_fits(bytes, words, o)
}
