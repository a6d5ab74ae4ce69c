// 01's refusals by name, then those that 02 adds, and each with its number once on this side; the rules have the same (specs/Code.antt
// of `rules`).
ghost use Rattle.std.specs.Prelude.{◌≡◌};
ghost use Rattle.values.specs.Refusals.{number_of, code_of};

// The number of a call that was done.
pub const DONE: u32 = 0;

// Why a call, a question or a product refuses.
#[derive(Clone, Copy, Debug, PartialEq, Eq)]
pub enum Refusal {
    // "the store is not well formed"
    IllFormed,
    // "unknown call or an argument out of range"
    OutOfRange,
    // "the caller is absent, a data object, suspended, waiting or terminated"
    NotRunning,
    // "cash below the fee, and the caller becomes terminated"
    CannotPay,
    // "no such object or password"
    NotFound,
    // "right missing"
    RightMissing,
    // "the range is not inside the window"
    OutsideWindow,
    // "not a process"
    NotProcess,
    // "the caller's cash is below the sum"; of withdraw, "some moneyword .. is below the sum"
    TooLittle,
    // "a moneyword on the climb would pass 4,294,967,295"
    Overflows,
    // "not a master"
    NotMaster,
    // "the serial is taken on that volume"; "p1 is taken in the object"
    Taken,
    // "64 objects or 512 capabilities live, or too few free blocks"
    NoSpace,
    // "four messages in the box"
    BoxFull,
    // "the box is empty"
    BoxEmpty,
    // "not terminated, or sum 0"
    NotRevivable,
    // 02, CR 3: "the window is not N × W bytes long"
    WrongLength,
    // 02, CR 7: "the count would pass 4,294,967,295"
    CountPasses,
    // 02, CR 9: "the store's day is after the capability's last day"
    Expired,
    // "the new day is before the store's"
    EarlierDay,
    // 02, CR 10: "none in the list will do"
    NoneWillDo,
}

impl From<Refusal> for u32 {
    ghost from_gives = { λ r n. n ≡ number_of r };

    fn from(refusal: Refusal) -> u32 {
        match refusal {
            Refusal::IllFormed => 1,
            Refusal::OutOfRange => 2,
            Refusal::NotRunning => 3,
            Refusal::CannotPay => 4,
            Refusal::NotFound => 5,
            Refusal::RightMissing => 6,
            Refusal::OutsideWindow => 7,
            Refusal::NotProcess => 8,
            Refusal::TooLittle => 9,
            Refusal::Overflows => 10,
            Refusal::NotMaster => 11,
            Refusal::Taken => 12,
            Refusal::NoSpace => 13,
            Refusal::BoxFull => 14,
            Refusal::BoxEmpty => 15,
            Refusal::NotRevivable => 16,
            Refusal::WrongLength => 17,
            Refusal::CountPasses => 18,
            Refusal::Expired => 19,
            Refusal::EarlierDay => 20,
            Refusal::NoneWillDo => 21,
        }
    }
}

// 0 where it is done, and else the refusal's number.
pub fn code_of<T>(answer: &Result<T, Refusal>) -> u32
    ensures { result ≡ code_of answer.now }
{
    match answer {
        Ok(_) => DONE,
        Err(refusal) => u32::from(*refusal),
    }
}
