// The sponge: a byte source whose lists are the first bytes of SHAKE256 of a label and a seed.
#![tactic(auto)]

ghost use Rattle.std.specs.Prelude.{◌≡◌, []};
ghost use Rattle.sponge.specs.Book.{sponge_book, sponge_book_fits};
ghost use Rattle.sponge.specs.Remaining.{remaining};

use shake::{Absorbing, Squeezing};
use source::{Source, SourceFault};

/// How many bytes a list of the sponge's book has.
pub const LIST_BYTES: usize = 65_536;

/// The source over SHAKE256. It keeps its place inside a block, so that a short draw only copies bytes.
#[derive(Drop)]
pub struct Sponge {
    stream: Squeezing,
    // how many bytes of the list remain
    left: usize,
}

impl Sponge {
    /// A sponge with no bytes to come until it is started.
    #[tactic(auto, using(shake::proofs::Laws::coming_none))]
    pub fn new() -> Sponge
        ensures { remaining result ≡ [] }
    {
        Sponge {
            stream: Absorbing::new().finish(),
            left: 0,
        }
    }
}

impl Source for Sponge {
    ghost book = { λ _. sponge_book };

    ghost rest = { remaining };

    ghost fits = { λ _. sponge_book_fits };

    #[tactic(auto, unfolding(crate::specs::Book::sponge_book))]
    fn start(&mut self, label: u8, seed: &[u8; 32]) {
        let mut message = Absorbing::new();
        message.absorb(&[label]);
        message.absorb(seed);
        self.stream = message.finish();
        self.left = LIST_BYTES;
    }

    #[tactic(auto, using(shake::proofs::Laws::length_coming, shake::proofs::Laws::take_coming))]
    fn draw(&mut self, buffer: &mut [u8]) -> Result<(), SourceFault> {
        let left = self
            .left
            .checked_sub(buffer.len())
            .ok_or(SourceFault::Short)?;
        self.stream.squeeze(buffer);
        self.left = left;
        Ok(())
    }

    #[tactic(auto, using(shake::proofs::Laws::length_coming))]
    fn left(&self) -> u64 {
        self.left as u64
    }
}
