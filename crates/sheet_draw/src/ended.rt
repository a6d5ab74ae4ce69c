// What a line ended: the capabilities that lived before it and do not live after it. A new master may take an ended
// one's slot: its password is another.
ghost use Rattle.std.specs.Prelude.{◌≡◌, ◌≢◌};

use crate::store::Store;
use std::fmt;
use values::limit::MAX_CAPS;

// The cells of a row of capabilities: slot 0 is no capability's.
const SLOTS: usize = MAX_CAPS + 1;

// A call that may end capabilities.
#[derive(Clone, Copy)]
pub enum Ending {
    DeleteCap,
    RenameObj,
}

impl Ending {
    // The call of a line that begins with this digit alone.
    pub fn of_digit(digit: u8) -> Option<Ending>
        ensures delete { digit ≡ 54 → result ≡ Some Ending.DeleteCap }
        ensures rename { digit ≡ 55 → result ≡ Some Ending.RenameObj }
        ensures other { digit ≢ 54 → digit ≢ 55 → result ≡ None }
    {
        match digit {
            b'6' => Some(Ending::DeleteCap),
            b'7' => Some(Ending::RenameObj),
            _ => None,
        }
    }
}

impl fmt::Display for Ending {
    fn fmt<W: fmt::Write>(&self, f: &mut fmt::Formatter<W>) -> fmt::Result {
        match self {
            Ending::DeleteCap => write!(f, "delete_cap"),
            Ending::RenameObj => write!(f, "rename_obj"),
        }
    }
}

// What is noted of a capability that lives: its object's name, and its password.
#[derive(Clone, Copy)]
struct Noted {
    volume: u8,
    serial: u16,
    p1: u32,
    p2: u32,
}

impl Noted {
    // The capability in this slot; none, where the slot is free.
    fn of(store: Store<'_>, cap: usize) -> Option<Noted> {
        let owner = store.linked(layout::OWNER, cap)?;
        Some(Noted {
            volume: store.byte(layout::VOLUME, owner),
            serial: store.link(layout::SERIAL, owner),
            p1: store.word(layout::P1, cap),
            p2: store.word(layout::P2, cap),
        })
    }
}

impl fmt::Display for Noted {
    fn fmt<W: fmt::Write>(&self, f: &mut fmt::Formatter<W>) -> fmt::Result {
        let Noted {
            volume,
            serial,
            p1,
            p2,
        } = *self;
        write!(f, "{volume} {serial} {p1} {p2}")
    }
}

// What lived before a line, by slot.
#[derive(Drop)]
pub struct Living([Option<Noted>; SLOTS]);

impl Living {
    // Nothing lives.
    pub const NOTHING: Living = Living([None; SLOTS]);

    // Notes each capability that lives in the store, where it is: a value that is handed back would be copied.
    pub fn note_all(&mut self, store: Store<'_>) {
        for (cap, noted) in self.0.iter_mut().enumerate() {
            *noted = Noted::of(store, cap);
        }
    }
}

// A line's number and its call, and each capability that it ended; nothing, if it ended none. A done delete or rename
// ends one at least, and a refused one none.
#[derive(Clone, Copy)]
pub struct Ended<'b, 'a> {
    pub before: &'b Living,
    pub after: Store<'a>,
    pub line: u64,
    pub call: Ending,
}

impl Ended<'_, '_> {
    // It lived before, and now its slot is free or has another password.
    fn ended(&self, cap: usize) -> Option<Noted> {
        let noted = self.before.0.get(cap).copied().flatten()?;
        let lives = self.after.linked(layout::OWNER, cap).is_some()
            && self.after.word(layout::P1, cap) == noted.p1
            && self.after.word(layout::P2, cap) == noted.p2;
        if lives { None } else { Some(noted) }
    }
}

impl fmt::Display for Ended<'_, '_> {
    fn fmt<W: fmt::Write>(&self, f: &mut fmt::Formatter<W>) -> fmt::Result {
        if !(1..=MAX_CAPS).any(|cap| self.ended(cap).is_some()) {
            return Ok(());
        }
        let Ended { line, call, .. } = *self;
        writeln!(f, "line {line}: {call} ended")?;
        // from the last slot down, as a fresh store hands them out
        for cap in (1..=MAX_CAPS).rev() {
            if let Some(noted) = self.ended(cap) {
                writeln!(f, "    {noted}")?;
            }
        }
        Ok(())
    }
}
