// What is told of a call that said no.
ghost use Rattle.std.specs.Prelude.{◌≡◌, Some};
ghost use Rattle.words.specs.Calls.{buffer_words, form_words, call_words, form_line, call_line, line_of};

use crate::Told;
use calls::{Buffer, Refusal};
use std::fmt;
use wire::WireFault;

/// What is wrong with a buffer.
pub fn buffer_sentence(buffer: Buffer) -> &'static str
    ensures { result.now ≡ buffer_words buffer }
{
    match buffer {
        Buffer::Output => "the room for the output has a wrong length",
        Buffer::SecretOutput => "the room for the secret has a wrong length",
        Buffer::SecretArea => "the secret area has a wrong length",
        Buffer::ProductArea => "the product area has a wrong length",
    }
}

// The sentence of a fault in the bytes of a key or parcel.
fn form_sentence(fault: WireFault) -> &'static str
    ensures { result.now ≡ form_words fault }
{
    match fault {
        WireFault::Length(_) => "an input has a wrong length",
        WireFault::Kind(_) => "the kind byte is wrong",
        WireFault::Fill => "a fill bit is not zero",
    }
}

// The sentence of a refusal.
fn call_sentence(refusal: Refusal) -> &'static str
    ensures { result.now ≡ call_words refusal }
{
    match refusal {
        Refusal::NoSuchPlace(_) => "a rack has the places 0 to 3",
        Refusal::EmptyPlace(_) => "the place is empty",
        Refusal::PlaceInUse(_) => "the place is in use",
        Refusal::WrongBuffer(buffer) => buffer_sentence(buffer),
        Refusal::WrongInput(..) => "an input has a wrong length",
        Refusal::Form(fault) => form_sentence(fault),
        Refusal::Short(_) => "too few bytes are left",
    }
}

// A line that tells a refusal: its number and values, and a sentence.
#[derive(Clone, Copy)]
struct Line<'a> {
    numbers: &'a [u64],
    sentence: &'static str,
}

impl fmt::Display for Line<'_> {
    ghost output = { λ x. Some (line_of x.numbers.now x.sentence.now) };

    fn fmt<W: fmt::Write>(&self, f: &mut fmt::Formatter<W>) -> fmt::Result {
        f.write_str("refused")?;
        for number in self.numbers {
            write!(f, " {number}")?;
        }
        write!(f, ": {}", self.sentence)
    }
}

// A call that was refused.
impl fmt::Display for Told<Refusal> {
    ghost output = { λ x. Some (call_line x.why) };

    fn fmt<W: fmt::Write>(&self, f: &mut fmt::Formatter<W>) -> fmt::Result {
        let told = self.why.numbers();
        let line = Line {
            numbers: told.as_slice(),
            sentence: call_sentence(self.why),
        };
        write!(f, "{line}")
    }
}

// A key or parcel that was refused for its bytes.
impl fmt::Display for Told<WireFault> {
    ghost output = { λ x. Some (form_line x.why) };

    fn fmt<W: fmt::Write>(&self, f: &mut fmt::Formatter<W>) -> fmt::Result {
        let why = Refusal::from(self.why);
        write!(f, "{}", Told { why })
    }
}
