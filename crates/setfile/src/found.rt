// What the lines so far state.
ghost use Rattle.std.specs.Prelude.{◌≡◌, ◌<◌, None, Some, Ok, Err, MatchResult, is_some, true};
ghost use Rattle.setfile.specs.Meaning.{number_count, place, nothing, put_in, stated};

use crate::NUMBERS;
use crate::fault::{Fault, Wrong};
use crate::field::{Entry, Field, Lengths, Number};

// Each number in its place, the check lengths and the block mark, where they are stated.
#[derive(Clone, Copy)]
pub(crate) struct Found {
    pub numbers: [Option<u16>; NUMBERS],
    pub lengths: Option<Lengths>,
    pub block: Option<bool>,
}

impl Number {
    // The place of a number in the table.
    pub(crate) fn place(self) -> usize
        ensures at { result ≡ place self }
        ensures inside { result < number_count }
    {
        self as usize
    }
}

// Keeps what a line states of a field, unless an earlier line stated it.
fn state<T: Copy>(field: Field, slot: &mut Option<T>, value: T) -> Result<(), Wrong>
    ensures { MatchResult result (λ _. (slot.old ≡ None) × (slot.new ≡ Some value)) (λ wrong. (is_some slot.old ≡ true) × (slot.new ≡ slot.old) × (wrong ≡ Wrong.Twice field)) }
{
    if slot.is_some() {
        return Err(Wrong::Twice(field));
    }
    *slot = Some(value);
    Ok(())
}

impl Found {
    // Nothing is stated.
    #[tactic(auto, unfolding(crate::specs::Meaning::nothing))]
    pub(crate) fn nothing() -> Found
        ensures { result ≡ nothing }
    {
        Found {
            numbers: [None; NUMBERS],
            lengths: None,
            block: None,
        }
    }

    // Takes what one more line gives; what an earlier line stated stays.
    pub(crate) fn put(&mut self, entry: Entry) -> Result<(), Wrong>
        ensures { MatchResult result (λ _. put_in self.old entry ≡ Ok self.new) (λ wrong. (put_in self.old entry ≡ Err wrong) × (self.new ≡ self.old)) }
    {
        match entry {
            Entry::Value(which, value) => state(
                Field::Scalar(which),
                &mut self.numbers[which.place()],
                value,
            ),
            Entry::List(lengths) => state(Field::Lengths, &mut self.lengths, lengths),
            Entry::Mark(block) => state(Field::Block, &mut self.block, block),
        }
    }

    // A number that has to be stated.
    pub(crate) fn number(&self, which: Number) -> Result<u16, Fault>
        ensures { result ≡ stated self.now which }
    {
        self.numbers[which.place()].ok_or(Fault::Missing(which))
    }
}
