// The fields of a set file, and what a line gives for one.
ghost use Rattle.std.specs.Prelude.{◌≡◌};
ghost use Rattle.setfile.specs.Values.{no_lengths, kept, given_lengths};

use crate::KEPT_LENGTHS;

// The numbers of a set, in the order in which a missing one is told: n, h, qb, pb, tb, kappa, f.
#[derive(Clone, Copy, Debug, PartialEq, Eq)]
pub enum Number {
    RingSize,
    Weight,
    Qb,
    Pb,
    Tb,
    Payload,
    Flips,
}

// What a line may state.
#[derive(Clone, Copy, Debug, PartialEq, Eq)]
pub enum Field {
    Scalar(Number),
    Lengths,
    Block,
}

// All that a line may state.
pub(crate) const FIELDS: [Field; 9] = [
    Field::Scalar(Number::RingSize),
    Field::Scalar(Number::Weight),
    Field::Scalar(Number::Qb),
    Field::Scalar(Number::Pb),
    Field::Scalar(Number::Tb),
    Field::Scalar(Number::Payload),
    Field::Scalar(Number::Flips),
    Field::Lengths,
    Field::Block,
];

// Check lengths: the first places of the table. Of more than the table holds the first are kept.
// Kept: a buffer with its length beside it, since reading a set must not fail for want of memory.
#[derive(Clone, Copy)]
pub struct Lengths {
    pub table: [u16; KEPT_LENGTHS],
    pub count: usize,
}

impl Lengths {
    // No lengths.
    #[tactic(auto, unfolding(crate::specs::Values::no_lengths))]
    pub(crate) fn none() -> Lengths
        ensures { result ≡ no_lengths }
    {
        Lengths {
            table: [0; KEPT_LENGTHS],
            count: 0,
        }
    }

    // Takes one more length, where there is room for it.
    pub(crate) fn push(&mut self, long: u16)
        ensures { self.new ≡ kept self.old long }
    {
        if self.count < KEPT_LENGTHS {
            self.table[self.count] = long;
            self.count += 1;
        }
    }

    // The lengths that the list holds.
    pub fn given(&self) -> &[u16]
        ensures { result.now ≡ given_lengths self.now }
    {
        &self.table[..self.count.min(KEPT_LENGTHS)]
    }
}

// What a line that is not blank gives: a number, the check lengths or the block mark.
#[derive(Clone, Copy)]
pub enum Entry {
    Value(Number, u16),
    List(Lengths),
    Mark(bool),
}
