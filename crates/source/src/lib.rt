// Byte sources: the trait that every source of expanded bytes meets, its fault, and the tape.
#![tactic(auto)]

ghost use Rattle.std.specs.Prelude.{◌≡◌, ℕ, ◌-◌, ◌^◌, ◌<◌, min, List, length, MatchResult};
ghost use Rattle.source.specs.Draws.{Filled, Refused};

mod tape;

pub use tape::Tape;

/// Why a draw is refused: fewer bytes remain than were asked for.
#[derive(Clone, Copy, PartialEq, Eq, Debug)]
pub enum SourceFault {
    Short,
}

/// A byte source. Its meaning is a book, which nothing changes, and the bytes still to come.
pub trait Source {
    // The book: the list of bytes for each label and seed.
    ghost book: { Self → ℕ → List ℕ → List ℕ };

    // The bytes still to come.
    ghost rest: { Self → List ℕ };

    // Every list of the book is shorter than 2^64 bytes.
    ghost fits: { (s : Self) (label : ℕ) (seed : List ℕ) → length (book s label seed) < 2 ^ 64 };

    /// Makes the bytes to come the book's list for this label and seed.
    fn start(&mut self, label: u8, seed: &[u8; 32])
        ensures book { book self.new ≡ book self.old }
        ensures rest { rest self.new ≡ book self.old label seed.now };

    /// Fills the buffer with the first bytes to come and removes them. Refused precisely if fewer remain than the
    /// buffer holds; buffer and source are then as before.
    fn draw(&mut self, buffer: &mut [u8]) -> Result<(), SourceFault>
        ensures book { book self.new ≡ book self.old }
        ensures cases { MatchResult result (λ _. Filled (rest self.old) (rest self.new) buffer.old buffer.new) (λ _. Refused (rest self.old) (rest self.new) buffer.old buffer.new) };

    /// How many bytes remain, or 2^64 − 1 if more do.
    fn left(&self) -> u64
        ensures { result ≡ min (length (rest self.now)) (2 ^ 64 - 1) };
}
