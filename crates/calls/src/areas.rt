// The working areas.
ghost use Rattle.std.specs.Prelude.{◌≡◌};
ghost use Rattle.calls.specs.Areas.{zeros};

use params::MOST_N;

/// The words of a working area: room for n + 1 coefficients, whatever n is.
pub const AREA_WORDS: usize = MOST_N as usize + 1;

/// A guard over a lent area: however the call ends, its drop writes zeros over the whole area.
pub struct Wiped<'a> {
    pub area: &'a mut [u16],
}

impl Drop for Wiped<'_> {
    fn drop(self)
        ensures { self.exit.0.now ≡ zeros self.entry.area.now }
    {
        self.area.fill(0);
        let Wiped { area: _ } = self;
    }
}
