// Numbers of calls: by name those, in call order 1 to 16, that a product above the store makes by itself, and the host's; and
// what a table in call order holds for a number.
ghost use Rattle.std.specs.Prelude.{◌≡◌};
ghost use Rattle.values.specs.Tables.{by_call};

pub const READ: u32 = 2;

pub const WRITE: u32 = 3;

pub const WITHDRAW: u32 = 8;

// 02, CR 9: "The host sets the day by call 17"; it is no call of a process.
pub const DAY: u32 = 17;

// What the table holds for the call with this number, at the number less one; for an unknown number, the value for none.
pub(crate) fn by_call<T: Copy>(table: &[T; 16], number: u32, none: T) -> T
    ensures { result ≡ by_call table.now number none }
{
    match number {
        1..=16 => table[(number - 1) as usize],
        _ => none,
    }
}
