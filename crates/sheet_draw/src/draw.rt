// Each object's tree of capabilities, one capability a line, a child one level deeper than its parent.
use crate::rights::Named;
use crate::store::Store;
use crate::walk::{Place, Walk};
use std::fmt;
use values::limit::{MAX_DAY, MAX_OBJECTS};
use values::rights::Rights;

// The last day of a capability that does not end.
const NO_END: u16 = MAX_DAY as u16;

// What stands before a line of this depth: four spaces a level, and no more than forty levels.
#[derive(Clone, Copy)]
struct Indent(u16);

impl fmt::Display for Indent {
    fn fmt<W: fmt::Write>(&self, f: &mut fmt::Formatter<W>) -> fmt::Result {
        for _level in 0..self.0.min(40) {
            write!(f, "    ")?;
        }
        Ok(())
    }
}

// The last day of the capability in a slot, where it has an end, and whether the store's day is after it.
#[derive(Clone, Copy)]
struct LastDay<'a> {
    store: Store<'a>,
    cap: usize,
}

impl fmt::Display for LastDay<'_> {
    fn fmt<W: fmt::Write>(&self, f: &mut fmt::Formatter<W>) -> fmt::Result {
        let last_day = self.store.link(layout::LAST_DAY, self.cap);
        if last_day == NO_END {
            return Ok(());
        }
        write!(f, ", last day {last_day}")?;
        if last_day < self.store.link(layout::DAY, 0) {
            write!(f, ", expired")?;
        }
        Ok(())
    }
}

// Whose child it is: a capability is named by its p1, which is unique in its object.
#[derive(Clone, Copy)]
struct Origin<'a> {
    store: Store<'a>,
    cap: usize,
}

impl fmt::Display for Origin<'_> {
    fn fmt<W: fmt::Write>(&self, f: &mut fmt::Formatter<W>) -> fmt::Result {
        match self.store.linked(layout::PARENT, self.cap) {
            Some(parent) => {
                let p1 = self.store.word(layout::P1, parent);
                write!(f, "from {p1}")
            }
            None => write!(f, "master"),
        }
    }
}

// A capability's line; its password comes first.
#[derive(Clone, Copy)]
struct Line<'a> {
    store: Store<'a>,
    place: Place,
}

impl fmt::Display for Line<'_> {
    fn fmt<W: fmt::Write>(&self, f: &mut fmt::Formatter<W>) -> fmt::Result {
        let store = self.store;
        let cap = self.place.cap;
        let indent = Indent(self.place.depth);
        let p1 = store.word(layout::P1, cap);
        let p2 = store.word(layout::P2, cap);
        let rights = Named(Rights(store.link(layout::RIGHTS, cap)));
        let start = store.word(layout::START, cap);
        let end = store.word(layout::END, cap);
        let moneyword = store.word(layout::MONEY, cap);
        let last_day = LastDay { store, cap };
        let origin = Origin { store, cap };
        write!(f, "{indent}{p1} {p2}:{rights}, window {start} to {end}")?;
        writeln!(f, ", moneyword {moneyword}{last_day}, {origin}")
    }
}

// What kind of object it is, and its size; a process's cash.
#[derive(Clone, Copy)]
struct Kind<'a> {
    store: Store<'a>,
    object: usize,
}

impl fmt::Display for Kind<'_> {
    fn fmt<W: fmt::Write>(&self, f: &mut fmt::Formatter<W>) -> fmt::Result {
        let size = self.store.link(layout::SIZE, self.object);
        if self.store.byte(layout::FLAG, self.object) == 0 {
            return write!(f, "data, size {size}");
        }
        let cash = self.store.word(layout::CASH, self.object);
        write!(f, "process, size {size}, cash {cash}")
    }
}

// An object's name, its volume and its serial, with its kind; and the tree below its master.
#[derive(Clone, Copy)]
struct Object<'a> {
    store: Store<'a>,
    object: usize,
    master: usize,
}

impl fmt::Display for Object<'_> {
    fn fmt<W: fmt::Write>(&self, f: &mut fmt::Formatter<W>) -> fmt::Result {
        let store = self.store;
        let object = self.object;
        let volume = store.byte(layout::VOLUME, object);
        let serial = store.link(layout::SERIAL, object);
        let kind = Kind { store, object };
        writeln!(f, "object {volume} {serial}: {kind}")?;
        for place in Walk::of(store, self.master) {
            if place.met {
                let line = Line { store, place };
                write!(f, "{line}")?;
            }
        }
        Ok(())
    }
}

// All objects that live, from the last slot down, as a fresh store hands them out.
#[derive(Clone, Copy)]
pub struct Objects<'a>(pub Store<'a>);

impl fmt::Display for Objects<'_> {
    fn fmt<W: fmt::Write>(&self, f: &mut fmt::Formatter<W>) -> fmt::Result {
        let store = self.0;
        for object in (1..=MAX_OBJECTS).rev() {
            if let Some(master) = store.linked(layout::MASTER, object) {
                let object = Object {
                    store,
                    object,
                    master,
                };
                write!(f, "{object}")?;
            }
        }
        Ok(())
    }
}
