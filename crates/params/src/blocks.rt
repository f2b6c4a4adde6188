// Where payload positions stand in the checks, and whether two share two checks.
ghost use Rattle.std.specs.Prelude.{◌≡◌, ℕ, ◌*◌, ◌<◌, ◌≤◌, MatchOption};
ghost use Rattle.params.specs.Checks.{check_length, place_of, SharesTwo, CodeRule, shared_with_first, symbol_count};
ghost use Rattle.params.specs.Rules.{CodeFits};

use crate::code::Code;
use crate::shape::Shape;

// A shape that keeps the rules on codes, of which the code rule is not known.
#[derive(Clone, Copy)]
pub(crate) struct Layout {
    pub(crate) shape: Shape,
    ghost fits: { CodeFits shape },
}

impl Layout {
    // The place of payload position k in check j.
    fn place(&self, j: usize, k: usize) -> usize
        requires known { j < 2 * self.now.shape.f }
        requires inside { k < self.now.shape.kappa }
        ensures at { result ≡ place_of self.now.shape j k }
        ensures inside { result < check_length self.now.shape j }
    {
        let long = self.shape.lengths[j] as usize;
        if self.shape.block && j == 0 {
            k / (self.shape.kappa as usize / long)
        } else {
            k % long
        }
    }

    // In how many checks position d stands where position 0 does.
    fn count_shared(&self, d: usize) -> usize
        requires inside { d < self.now.shape.kappa }
        ensures { result ≡ shared_with_first self.now.shape d (2 * self.now.shape.f) }
    {
        // Kept: a loop, since a filter that is counted takes a quarter more time, and twenty times as much where there are no checks.
        let mut count = 0;
        for j in 0..2 * self.shape.f as usize {
            if self.place(j, d) == 0 {
                count += 1;
            }
        }
        count
    }

    // The first position that shares two checks with position 0. Where there is none no two positions share two checks: two that
    // share a check are a whole number of lengths apart, or less than a block, and then so are position 0 and their distance.
    pub(crate) fn shared_pair(&self) -> Option<u16>
        ensures { MatchOption result (CodeRule self.now.shape) (λ d. SharesTwo self.now.shape 0 d) }
    {
        (1..self.shape.kappa).find(|d| self.count_shared(*d as usize) > 1)
    }

    // The symbol count μ: the payload and all checks.
    pub(crate) fn count_symbols(&self) -> u16
        ensures { result ≡ symbol_count self.now.shape }
    {
        let lengths = &self.shape.lengths[..2 * self.shape.f as usize];
        self.shape.kappa + lengths.iter().sum::<u16>()
    }
}

impl Code {
    // The code's shape, with the rules that it keeps.
    fn layout(&self) -> Layout
        ensures { result.shape ≡ self.now.shape }
    {
        Layout { shape: self.shape }
    }

    // The place of payload position k in check j; encoding and correcting ask for known checks and positions alone.
    pub fn place(&self, j: usize, k: usize) -> usize
        requires known { j < 2 * self.now.shape.f }
        requires inside { k < self.now.shape.kappa }
        ensures at { result ≡ place_of self.now.shape j k }
        ensures inside { result < check_length self.now.shape j }
    {
        self.layout().place(j, k)
    }
}
