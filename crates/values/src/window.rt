// A window, or a range, is a start and an end: it holds start and excludes end.
ghost use Rattle.std.specs.Prelude.{◌≡◌};
ghost use Rattle.rules.specs.Calls.{lies_in, nearest, moved};
ghost use Rattle.values.specs.Words.{window_of};

#[derive(Clone, Copy, Debug, PartialEq, Eq)]
pub struct Window {
    pub start: u32,
    pub end: u32,
}

impl Window {
    // The range lies in this window, also when it is empty.
    pub fn holds(self, range: Window) -> bool
        ensures { result ≡ lies_in (window_of range) (window_of self) }
    {
        self.start <= range.start && range.end <= self.end
    }

    // The point of this window nearest to x.
    pub fn nearest(self, x: u32) -> u32
        ensures { result ≡ nearest x (window_of self) }
    {
        if x < self.end {
            if x < self.start { self.start } else { x }
        } else {
            if self.end < self.start {
                self.start
            } else {
                self.end
            }
        }
    }

    // Each end of the range moved to the nearest point of this window.
    pub fn moved(self, range: Window) -> Window
        ensures { window_of result ≡ moved (window_of range) (window_of self) }
    {
        Window {
            start: self.nearest(range.start),
            end: self.nearest(range.end),
        }
    }
}
