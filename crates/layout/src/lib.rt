// Where each field stands in the three slices: the only numbers of the layout on this side, as in specs/Layout.antt.
// A field has a row of cells, one for each slot; the cell of slot 0 is no record's. Objects have slots 1 to 64,
// capabilities and blocks 1 to 512. Message m, 0 to 3, of object o has slot 4 o + m. docs/LAYOUT.md has the table.
#![tactic(auto)]

ghost use Rattle.std.specs.Prelude.{◌≡◌};

pub mod process;
pub mod rows;

// The last slot of a message.
pub const MESSAGE_SLOTS: usize = 259;

// The bytes.
pub const VOLUME: usize = 0;

pub const FLAG: usize = 65;

pub const SUSPENDED: usize = 130;

pub const WAITING: usize = 195;

pub const TERMINATED: usize = 260;

pub const COUNT: usize = 325;

pub const LENGTH: usize = 390;

pub const TEXT: usize = 650;

pub const DATA: usize = 4810;

pub const BYTES: usize = 37642;

// The 16-bit links.
pub const OBJECTS: usize = 0;

pub const FREE_OBJECTS: usize = 1;

pub const FREE_CAPS: usize = 2;

pub const FREE_BLOCKS: usize = 3;

pub const MASTER: usize = 4;

pub const SERIAL: usize = 69;

pub const SIZE: usize = 134;

pub const FIRST_BLOCK: usize = 199;

pub const NEXT_OBJECT: usize = 264;

pub const OWNER: usize = 329;

pub const PARENT: usize = 842;

pub const FIRST_CHILD: usize = 1355;

pub const NEXT_CAP: usize = 1868;

pub const PREV_CAP: usize = 2381;

pub const RIGHTS: usize = 2894;

pub const NEXT_BLOCK: usize = 3407;

pub const LAST_DAY: usize = 3920;

pub const DAY: usize = 4433;

pub const LINKS: usize = 4434;

// The 32-bit words.
pub const HOUSE: usize = 0;

pub const CASH: usize = 1;

pub const LOCK1: usize = 66;

pub const LOCK2: usize = 131;

pub const SUM: usize = 196;

pub const P1: usize = 456;

pub const P2: usize = 969;

pub const MONEY: usize = 1482;

pub const START: usize = 1995;

pub const END: usize = 2508;

pub const WORDS: usize = 3021;
