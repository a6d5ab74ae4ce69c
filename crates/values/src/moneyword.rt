// A moneyword is a purse or a withdrawal limit. Nothing here turns it into cash.
ghost use Rattle.std.specs.Prelude.{◌≡◌, ◌+◌, ◌-◌, min, ltb};
ghost use Rattle.rules.specs.Limit;

use crate::limit::MAX_WORD;

#[derive(Clone, Copy, Debug, PartialEq, Eq)]
pub struct Moneyword(pub u32);

impl Moneyword {
    // It is below the sum.
    pub fn below(self, sum: u32) -> bool
        ensures { result ≡ ltb self.0 sum }
    {
        self.0 < sum
    }

    // Less the sum, 0 where it is below it.
    pub fn less(self, sum: u32) -> Moneyword
        ensures { result.0 ≡ self.0 - sum }
    {
        Moneyword(self.0.saturating_sub(sum))
    }

    // With the sum it would pass 4,294,967,295.
    pub fn passes(self, sum: u32) -> bool
        ensures { result ≡ ltb Limit.word (self.0 + sum) }
    {
        MAX_WORD - self.0 < sum
    }

    // The smaller of the limit and it.
    pub fn at_most(self, limit: u32) -> Moneyword
        ensures { result.0 ≡ min limit self.0 }
    {
        Moneyword(self.0.min(limit))
    }
}
