// Where a call's bytes come from.
ghost use Rattle.std.specs.Prelude.{◌≡◌};
ghost use Rattle.sponge.specs.Book.{sponge_book};
ghost use Rattle.keyseal.specs.Origin.{origin_book, origin_rest, origin_fits, book_of};

use kit::{KitSource, new_source};
use source::{Source, SourceFault, Tape};

/// One of two sources: a tape, or another.
#[derive(Drop)]
pub enum Origin<T, S> {
    Taped(T),
    Other(S),
}

impl<T: Source, S: Source> Source for Origin<T, S> {
    ghost book = { λ s. origin_book T.Source.book S.Source.book s };

    ghost rest = { λ s. origin_rest T.Source.rest S.Source.rest s };

    ghost fits = { λ s. origin_fits T.Source.book S.Source.book T.Source.fits S.Source.fits s };

    fn start(&mut self, label: u8, seed: &[u8; 32]) {
        match self {
            Origin::Taped(tape) => tape.start(label, seed),
            Origin::Other(source) => source.start(label, seed),
        }
    }

    fn draw(&mut self, buffer: &mut [u8]) -> Result<(), SourceFault> {
        match self {
            Origin::Taped(tape) => tape.draw(buffer),
            Origin::Other(source) => source.draw(buffer),
        }
    }

    fn left(&self) -> u64 {
        match self {
            Origin::Taped(tape) => tape.left(),
            Origin::Other(source) => source.left(),
        }
    }
}

// The tape, or the sponge as stations and tills use it.
pub(crate) fn bytes_from(tape: &[u8], taped: bool) -> Origin<Tape<'_>, KitSource>
    ensures { origin_book (λ t _ _. t.bytes.now) (λ _. sponge_book) result ≡ book_of tape.now taped }
{
    if taped {
        Origin::Taped(Tape::new(tape))
    } else {
        Origin::Other(new_source())
    }
}
