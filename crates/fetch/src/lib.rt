// The fetch layer: a source over another that fetches bytes ahead, so that small draws seldom reach the source below.
#![tactic(auto)]

ghost use Rattle.std.specs.Prelude.{◌≡◌, ◌≤◌, ◌++◌, length, drop};

use source::{Source, SourceFault};

/// How many bytes are fetched ahead at most.
pub const FETCH_BYTES: usize = 64;

/// A layer over a source, with the same book. The bytes it holds count as still to come.
#[derive(Drop)]
pub struct Fetch<S> {
    source: S,
    // Kept: a layer has no heap, so what it holds stands in a fixed buffer.
    bytes: [u8; FETCH_BYTES],
    // the bytes held stand from here to the buffer's end
    from: usize,
    ghost within: { from ≤ length bytes },
}

impl<S: Source> Fetch<S> {
    /// A layer over this source that holds nothing yet: book and bytes to come are those of the source.
    pub fn new(source: S) -> Fetch<S>
        ensures under { result.source ≡ source }
        ensures rest { drop result.from result.bytes ++ S.rest result.source ≡ S.rest source }
    {
        Fetch {
            source,
            bytes: [0; FETCH_BYTES],
            from: FETCH_BYTES,
        }
    }

    // Lets go of what is held and fetches ahead what the source has, up to the layer's room.
    fn fetch_ahead(&mut self)
        ensures book { S.book self.new.source ≡ S.book self.old.source }
        ensures rest { drop self.new.from self.new.bytes ++ S.rest self.new.source ≡ S.rest self.old.source }
    {
        let count = self.source.left().min(FETCH_BYTES as u64) as usize;
        let from = FETCH_BYTES - count;
        // The source has as many bytes. If it refused them, nothing would be held.
        let fetched = self.source.draw(&mut self.bytes[from..]);
        self.from = if fetched.is_ok() { from } else { FETCH_BYTES };
    }
}

impl<S: Source> Source for Fetch<S> {
    ghost book = { λ s. S.Source.book s.source };

    ghost rest = { λ s. drop s.from s.bytes ++ S.Source.rest s.source };

    ghost fits = { λ s. S.Source.fits s.source };

    fn start(&mut self, label: u8, seed: &[u8; 32]) {
        self.source.start(label, seed);
        self.fetch_ahead();
    }

    fn draw(&mut self, buffer: &mut [u8]) -> Result<(), SourceFault> {
        let held = FETCH_BYTES - self.from;
        if buffer.len() <= held {
            let upto = self.from + buffer.len();
            buffer.copy_from_slice(&self.bytes[self.from..upto]);
            self.from = upto;
            return Ok(());
        }
        let (front, back) = buffer.split_at_mut(held);
        // The source below comes first: if it refuses, nothing is to be undone.
        self.source.draw(back)?;
        front.copy_from_slice(&self.bytes[self.from..]);
        self.fetch_ahead();
        Ok(())
    }

    fn left(&self) -> u64 {
        let held = FETCH_BYTES - self.from;
        self.source.left().saturating_add(held as u64)
    }
}

#[cfg(test)]
mod tests {
    use super::*;
    use source::Tape;
    use std::test::Fail;

    // Draws across the end of what is held, and one that asks for more than is left.
    #[test]
    fn draws_through_a_layer(rt: HostRuntime) -> Result<(), Fail> {
        let mut bytes = [7u8; 70];
        bytes[63] = 1;
        bytes[64] = 2;
        bytes[65] = 3;
        let mut layer = Fetch::new(Tape::new(&bytes));
        assert_eq!(rt; layer.left(), 0);
        layer.start(1, &[0; 32]);
        assert_eq!(rt; layer.left(), 70);
        let mut front = [0u8; 63];
        layer.draw(&mut front)?;
        assert_eq!(rt; front[62], 7);
        let mut next = [0u8; 3];
        layer.draw(&mut next)?;
        assert_eq!(rt; next, [1, 2, 3]);
        assert_eq!(rt; layer.draw(&mut [0; 5]), Err(SourceFault::Short));
        assert_eq!(rt; layer.left(), 4);
        Ok(())
    }
}
