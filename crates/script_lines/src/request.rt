// A line as a request: its numbers by their names. A number that the line does not have is 0.
ghost use Rattle.std.specs.Prelude.{◌-◌, ◌≡◌};
ghost use Rattle.rules.specs.Limit as Limit;
ghost use Rattle.rules.specs.Rights.{op};
ghost use Rattle.rules.specs.Script.{nth, number_at};
ghost use Rattle.rules.specs.Script.{call_of as script_call_of};
ghost use Rattle.call_steps.specs.Request.{call_of};
ghost use Rattle.script_lines.specs.Lacking.{number_or};

use crate::fits::{lacking, nth};
use crate::table;
use crate::table::column;
use call_steps::request::{Capability, Name, Request};
use values::limit::{DEFAULT_LAST_DAY, DEFAULT_LIMIT};
use values::window::Window;

// The number at a field's place.
fn number_at(numbers: &[u32], place: u8) -> u32
    ensures { result ≡ number_at numbers.now place }
{
    if place == 0 {
        return 0;
    }
    nth(numbers, usize::from(place))
}

// The name whose volume and serial are at these fields' places.
fn name_at(numbers: &[u32], volume: u8, serial: u8) -> Name
    ensures volume { result.volume ≡ number_at numbers.now volume }
    ensures serial { result.serial ≡ number_at numbers.now serial }
{
    Name {
        volume: number_at(numbers, volume),
        serial: number_at(numbers, serial),
    }
}

// The number at the place of a field that stands after those that the line lacks: so many less.
fn number_after(numbers: &[u32], place: u8, lacking: u8) -> u32
    ensures { result ≡ number_at numbers.now (place - lacking) }
{
    if place <= lacking {
        return 0;
    }
    number_at(numbers, place - lacking)
}

// The number at a field's place, or the default where the line lacks it.
fn number_or(numbers: &[u32], place: u8, lacks: bool, default: u32) -> u32
    ensures { result ≡ number_or lacks default numbers.now place }
{
    if lacks {
        return default;
    }
    number_at(numbers, place)
}

// The request that a line says; the bytes of write and send are `text_of`.
pub fn request_of(numbers: &[u32]) -> Request
    ensures { call_of result (script_call_of (op (nth numbers.now 0)) numbers.now).text
        Limit.buffer Limit.scratch
        ≡ script_call_of (op (nth numbers.now 0)) numbers.now }
{
    let number = nth(numbers, 0);
    let call = column(number);
    let lacking = lacking(numbers, call);
    Request {
        number,
        caller: name_at(
            numbers,
            table::CALLER_VOLUME[call],
            table::CALLER_SERIAL[call],
        ),
        presented: Capability {
            name: name_at(numbers, table::CAP_VOLUME[call], table::CAP_SERIAL[call]),
            password: [
                number_at(numbers, table::CAP_P1[call]),
                number_at(numbers, table::CAP_P2[call]),
            ],
        },
        name: name_at(numbers, table::VOLUME[call], table::SERIAL[call]),
        size: number_at(numbers, table::SIZE[call]),
        flag: number_at(numbers, table::FLAG[call]),
        rights: number_at(numbers, table::RIGHTS[call]),
        drawn: [
            number_after(numbers, table::P1[call], lacking),
            number_after(numbers, table::P2[call], lacking),
        ],
        range: Window {
            start: number_at(numbers, table::START[call]),
            end: number_at(numbers, table::END[call]),
        },
        sum: number_at(numbers, table::SUM[call]),
        lock: [
            number_at(numbers, table::WORD1[call]),
            number_at(numbers, table::WORD2[call]),
        ],
        limit: number_or(numbers, table::LIMIT[call], lacking >= 2, DEFAULT_LIMIT),
        last_day: number_or(
            numbers,
            table::LAST_DAY[call],
            lacking >= 1,
            DEFAULT_LAST_DAY,
        ),
        day: number_at(numbers, table::DAY[call]),
    }
}
