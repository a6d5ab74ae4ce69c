// The two ways that a sum goes: out of a moneyword, or into it.
ghost use Rattle.std.specs.Prelude.{◌≡◌, false};
ghost use Rattle.call_purse.specs.Climb.{stops, moves};

use values::moneyword::Moneyword;

// kept: an enum matched in `stops` and `moves`. A trait with a type for each way would say both again as ghost members
// and laws, beside the definitions of specs/Climb.antt, and `climb_stops` and `climb_moves` would read the same.
#[derive(Clone, Copy)]
pub enum Way {
    Out,
    Into,
}

impl Way {
    // The moneyword is below the sum, or would pass 4,294,967,295.
    pub fn stops(self, m: Moneyword, sum: u32) -> bool
        ensures { result ≡ stops self sum m.0 }
    {
        match self {
            Way::Out => m.below(sum),
            Way::Into => m.passes(sum),
        }
    }

    // Less the sum, or with it.
    pub fn moves(self, m: Moneyword, sum: u32) -> Moneyword
        requires { stops self sum m.0 ≡ false }
        ensures { result.0 ≡ moves self sum m.0 }
    {
        match self {
            Way::Out => m.less(sum),
            Way::Into => Moneyword(m.0 + sum),
        }
    }
}
