// Cash pays fees. Nothing here turns it into a moneyword.
// kept: `below` and `less` are Moneyword's, too, but the two units are kept apart, and a generic over both would turn one into the other
ghost use Rattle.std.specs.Prelude.{◌≡◌, ◌-◌, ltb};

#[derive(Clone, Copy, Debug, PartialEq, Eq)]
pub struct Cash(pub u32);

impl Cash {
    // It is below the sum.
    pub fn below(self, sum: u32) -> bool
        ensures { result ≡ ltb self.0 sum }
    {
        self.0 < sum
    }

    // Less the sum, 0 where it is below it.
    pub fn less(self, sum: u32) -> Cash
        ensures { result.0 ≡ self.0 - sum }
    {
        Cash(self.0.saturating_sub(sum))
    }
}
