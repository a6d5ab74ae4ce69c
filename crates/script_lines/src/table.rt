// Which numbers the line of a call has, and where: the rules' `fields` as a table. It has a column for each call number from 0
// to 16, the first of them for every number that is no process call's, 17 alone of which has a line, and a row for each
// field after the call number: its place in the line, counted from 0, where the call number stands; 0 says that the line
// does not have the field.
// kept: an array for each field; tried as one array of seventeen structs, the check of `line_of`, which read it, outgrew its memory.
ghost use Rattle.std.specs.Prelude.{◌≤◌, ◌≡◌};
ghost use Rattle.rules.specs.Rights.{op};

pub(crate) const CALLER_VOLUME: [u8; 17] = [0, 1, 1, 1, 1, 1, 1, 1, 1, 1, 1, 1, 1, 1, 1, 1, 1];

pub(crate) const CALLER_SERIAL: [u8; 17] = [0, 2, 2, 2, 2, 2, 2, 2, 2, 2, 2, 2, 2, 2, 2, 2, 2];

pub(crate) const CAP_VOLUME: [u8; 17] = [0, 0, 3, 3, 3, 3, 3, 3, 3, 3, 3, 3, 3, 3, 0, 0, 3];

pub(crate) const CAP_SERIAL: [u8; 17] = [0, 0, 4, 4, 4, 4, 4, 4, 4, 4, 4, 4, 4, 4, 0, 0, 4];

pub(crate) const CAP_P1: [u8; 17] = [0, 0, 5, 5, 5, 5, 5, 5, 5, 5, 5, 5, 5, 5, 0, 0, 5];

pub(crate) const CAP_P2: [u8; 17] = [0, 0, 6, 6, 6, 6, 6, 6, 6, 6, 6, 6, 6, 6, 0, 0, 6];

pub(crate) const VOLUME: [u8; 17] = [0, 3, 0, 0, 0, 0, 0, 0, 0, 0, 0, 0, 0, 0, 0, 0, 0];

pub(crate) const SIZE: [u8; 17] = [0, 4, 0, 0, 0, 0, 0, 0, 0, 0, 0, 0, 0, 0, 0, 0, 0];

pub(crate) const FLAG: [u8; 17] = [0, 5, 0, 0, 0, 0, 0, 0, 0, 0, 0, 0, 0, 0, 0, 0, 0];

pub(crate) const RIGHTS: [u8; 17] = [0, 6, 0, 0, 0, 7, 0, 0, 0, 0, 0, 0, 0, 0, 0, 0, 0];

pub(crate) const SERIAL: [u8; 17] = [0, 7, 0, 0, 0, 0, 0, 0, 0, 0, 0, 0, 0, 0, 0, 0, 0];

pub(crate) const P1: [u8; 17] = [0, 8, 0, 0, 0, 12, 0, 7, 0, 0, 0, 0, 0, 0, 0, 0, 0];

pub(crate) const P2: [u8; 17] = [0, 9, 0, 0, 0, 13, 0, 8, 0, 0, 0, 0, 0, 0, 0, 0, 0];

pub(crate) const START: [u8; 17] = [0, 0, 7, 7, 0, 8, 0, 0, 0, 0, 0, 0, 0, 0, 0, 0, 0];

pub(crate) const END: [u8; 17] = [0, 0, 8, 8, 0, 9, 0, 0, 0, 0, 0, 0, 0, 0, 0, 0, 0];

pub(crate) const SUM: [u8; 17] = [0, 0, 0, 0, 0, 0, 0, 0, 7, 7, 0, 0, 0, 7, 0, 0, 7];

pub(crate) const WORD1: [u8; 17] = [0, 0, 0, 0, 0, 0, 0, 0, 0, 0, 0, 0, 7, 0, 0, 0, 0];

pub(crate) const WORD2: [u8; 17] = [0, 0, 0, 0, 0, 0, 0, 0, 0, 0, 0, 0, 8, 0, 0, 0, 0];

pub(crate) const TEXT: [u8; 17] = [0, 0, 0, 9, 0, 0, 0, 0, 0, 0, 0, 0, 0, 8, 0, 0, 0];

pub(crate) const LIMIT: [u8; 17] = [0, 0, 0, 0, 0, 10, 0, 0, 0, 0, 0, 0, 0, 0, 0, 0, 0];

pub(crate) const LAST_DAY: [u8; 17] = [0, 0, 0, 0, 0, 11, 0, 0, 0, 0, 0, 0, 0, 0, 0, 0, 0];

pub(crate) const DAY: [u8; 17] = [1, 0, 0, 0, 0, 0, 0, 0, 0, 0, 0, 0, 0, 0, 0, 0, 0];

// How many fields the line has, the text counted as one.
pub(crate) const LENGTH: [u8; 17] = [2, 10, 9, 10, 7, 14, 7, 9, 8, 8, 7, 7, 9, 9, 3, 3, 8];

// The column of a call number.
pub(crate) fn column(number: u32) -> usize
    ensures { (result ≤ 16) × (op result ≡ op number) }
{
    if number > 16 {
        return 0;
    }
    number as usize
}
