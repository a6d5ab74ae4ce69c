// A request as it comes by value, and the reply to it: the rules' call and answer, without the lent slices.
ghost use Rattle.std.specs.Prelude.{◌≡◌, Ok};
ghost use Rattle.rules.specs.Call.{done, hands_back, tells};
ghost use Rattle.values.specs.Words.{password_of};
ghost use Rattle.call_steps.specs.Request.{name_of, capability_of, presenting_request, read_request, write_request, withdraw_request};
ghost use Rattle.call_steps.specs.Replies.{Gives, HandsOver};

use values::moneyword::Moneyword;
use values::number::{READ, WITHDRAW, WRITE};
use values::refusal::Refusal;
use values::window::Window;

// An object's name: its volume and a serial.
#[derive(Clone, Copy, Debug, PartialEq, Eq)]
pub struct Name {
    pub volume: u32,
    pub serial: u32,
}

// A capability as it is presented and handed back.
#[derive(Clone, Copy, Debug, PartialEq, Eq)]
pub struct Capability {
    pub name: Name,
    pub password: [u32; 2],
}

impl Capability {
    // None.
    const NONE: Capability = Capability {
        name: Name {
            volume: 0,
            serial: 0,
        },
        password: [0, 0],
    };
}

// Every call's arguments by their names; a call looks at its own alone. Pairs stand first, so that each lies in one
// 8-byte word, and is read as such from where it was just stored.
#[derive(Clone, Copy, Debug, PartialEq, Eq)]
pub struct Request {
    pub caller: Name,
    pub presented: Capability,
    pub name: Name,
    pub drawn: [u32; 2],
    pub range: Window,
    pub lock: [u32; 2],
    pub number: u32,
    pub size: u32,
    pub flag: u32,
    pub rights: u32,
    pub sum: u32,
    pub limit: u32,
    pub last_day: u32,
    pub day: u32,
}

impl Request {
    // A call with a range and a sum; the arguments that it does not use are 0.
    fn presenting(
        number: u32,
        caller: Name,
        presented: Capability,
        range: Window,
        sum: u32,
    ) -> Request
        ensures { result ≡ presenting_request number caller presented range sum }
    {
        Request {
            number,
            caller,
            presented,
            name: Name {
                volume: 0,
                serial: 0,
            },
            size: 0,
            flag: 0,
            rights: 0,
            drawn: [0, 0],
            range,
            sum,
            lock: [0, 0],
            limit: 0,
            last_day: 0,
            day: 0,
        }
    }

    // A read of this range.
    pub fn read(caller: Name, presented: Capability, range: Window) -> Request
        ensures { result ≡ read_request caller presented range }
    {
        Request::presenting(READ, caller, presented, range, 0)
    }

    // A write to this range.
    pub fn write(caller: Name, presented: Capability, range: Window) -> Request
        ensures { result ≡ write_request caller presented range }
    {
        Request::presenting(WRITE, caller, presented, range, 0)
    }

    // A withdraw of this sum.
    pub fn withdraw(caller: Name, presented: Capability, sum: u32) -> Request
        ensures { result ≡ withdraw_request caller presented sum }
    {
        let none = Window { start: 0, end: 0 };
        Request::presenting(WITHDRAW, caller, presented, none, sum)
    }
}

// What a done call gives; `count` bytes stand at the buffer's front. Numbers that are handed over side by side stand apart here:
// read as one, they would wait for the stores of both.
#[derive(Clone, Copy, Debug, PartialEq, Eq)]
pub struct Given {
    pub sum: u32,
    pub length: u32,
    pub capability: Capability,
    pub moneyword: u32,
    pub count: u32,
}

// What a call gives, or its refusal.
pub type Reply = Result<Given, Refusal>;

impl Given {
    const NOTHING: Given = Given {
        sum: 0,
        length: 0,
        capability: Capability::NONE,
        moneyword: 0,
        count: 0,
    };

    // Nothing to tell.
    pub fn done() -> Given
        ensures { Gives done (Ok result) }
    {
        Given::NOTHING
    }

    // A new capability, as drawn.
    pub fn hands_back(name: Name, password: [u32; 2]) -> Given
        ensures { Gives (hands_back (name_of name) (password_of password)) (Ok result) }
    {
        Given {
            capability: Capability { name, password },
            ..Given::NOTHING
        }
    }

    // A sum, and `count` bytes at the buffer's front.
    pub fn hands_over(sum: u32, count: u32) -> Given
        ensures { HandsOver sum count (Ok result) }
    {
        Given {
            sum,
            count,
            ..Given::NOTHING
        }
    }

    // A window's length and a moneyword.
    pub fn tells(length: u32, moneyword: Moneyword) -> Given
        ensures { Gives (tells length moneyword.0) (Ok result) }
    {
        Given {
            length,
            moneyword: moneyword.0,
            ..Given::NOTHING
        }
    }
}
