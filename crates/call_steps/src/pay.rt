// Refusal 4 and the fee.
ghost use Rattle.std.specs.Prelude.{◌≡◌, is_ok, IfErr};
ghost use Rattle.values.specs.declared.refusal.Refusal.TheVariants.{CannotPay};
ghost use Rattle.call_steps.specs.Paying.{CanPay, Pays};

use layout::{CASH, HOUSE, TERMINATED};
use values::cash::Cash;
use values::refusal::Refusal;

// The fee goes from the cash of slot me to the house; where the cash is below it, me becomes terminated.
pub fn pay(bytes: &mut [u8], words: &mut [u32], me: usize, fee: u32) -> Result<(), Refusal>
    requires { CanPay bytes.old words.old me }
    ensures slices { Pays bytes.old words.old me fee (is_ok result) bytes.new words.new }
    ensures refusal { IfErr result (λ r. r ≡ CannotPay) }
{
    let cash = Cash(words[CASH + me]);
    if cash.below(fee) {
        bytes[TERMINATED + me] = 1;
        return Err(Refusal::CannotPay);
    }
    let left = cash.less(fee);
    words[CASH + me] = left.0;
    words[HOUSE] += fee;
    Ok(())
}
