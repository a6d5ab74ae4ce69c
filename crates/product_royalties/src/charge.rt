// What picks cost.
ghost use Rattle.std.specs.Prelude.{◌≡◌, ◌+◌, ◌≤◌};
ghost use Rattle.product_royalties.specs.Charge.{max_count, thousandths, charge, bill_for};

use crate::limit::{CREDIT, FIRST_PICKS, FIRST_RATE, LAST_RATE, NEXT_PICKS, NEXT_RATE};

// The thousandths of p picks.
fn thousandths(p: u32) -> u64
    ensures { result ≡ thousandths p }
{
    if p <= FIRST_PICKS {
        return u64::from(p) * FIRST_RATE;
    }
    let first = u64::from(FIRST_PICKS) * FIRST_RATE;
    if p <= NEXT_PICKS {
        return first + u64::from(p - FIRST_PICKS) * NEXT_RATE;
    }
    let next = u64::from(NEXT_PICKS - FIRST_PICKS) * NEXT_RATE;
    first + next + u64::from(p - NEXT_PICKS) * LAST_RATE
}

// Their charge, in whole credits.
fn charge(p: u32) -> u32
    ensures { result ≡ charge p }
{
    (thousandths(p) / CREDIT) as u32
}

// The bill for n more picks after p.
pub(crate) fn bill_for(p: u32, n: u32) -> u32
    requires { p + n ≤ max_count }
    ensures { result ≡ bill_for p n }
{
    charge(p + n) - charge(p)
}
