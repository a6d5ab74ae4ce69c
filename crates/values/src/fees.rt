// The sixteen fees, in call order.
ghost use Rattle.std.specs.Prelude.{◌≡◌};
ghost use Rattle.rules.specs.Rights.{fee_of};

use crate::number::by_call;

const FEES: [u32; 16] = [20, 1, 2, 1, 5, 5, 10, 2, 2, 1, 1, 5, 2, 1, 0, 5];

// The fee of the call with this number; 0 for an unknown number.
pub fn fee_of(number: u32) -> u32
    ensures { result ≡ fee_of number }
{
    by_call(&FEES, number, 0)
}
