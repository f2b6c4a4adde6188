// The tape: a source that holds bytes of the caller.
ghost use Rattle.std.specs.Prelude.{◌≡◌, ◌-◌, ◌^◌, ◌<◌, [], length, drop};

use crate::{Source, SourceFault};

/// A source whose list, for every label and seed, is the bytes lent to it.
#[derive(Drop)]
pub struct Tape<'a> {
    bytes: &'a [u8],
    // the bytes still to come: the last of the tape
    rest: &'a [u8],
    ghost within: { (rest.now ≡ drop (length bytes.now - length rest.now) bytes.now) × (length bytes.now < 2 ^ 64) },
}

impl<'a> Tape<'a> {
    /// A tape of these bytes, with none to come until it is started. The clauses are its book and its rest.
    pub fn new(bytes: &'a [u8]) -> Tape<'a>
        ensures book { result.bytes.now ≡ bytes.now }
        ensures rest { result.rest.now ≡ [] }
    {
        Tape { bytes, rest: &[] }
    }
}

impl<'a> Source for Tape<'a> {
    ghost book = { λ s _ _. s.bytes.now };

    ghost rest = { λ s. s.rest.now };

    ghost fits = { λ s _ _. s.within.1 };

    fn start(&mut self, _label: u8, _seed: &[u8; 32]) {
        self.rest = self.bytes;
    }

    fn draw(&mut self, buffer: &mut [u8]) -> Result<(), SourceFault> {
        let (drawn, rest) = self
            .rest
            .split_at_checked(buffer.len())
            .ok_or(SourceFault::Short)?;
        buffer.copy_from_slice(drawn);
        self.rest = rest;
        Ok(())
    }

    fn left(&self) -> u64 {
        self.rest.len() as u64
    }
}
