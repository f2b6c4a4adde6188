// A set as a file states it.
use crate::field::Lengths;
use params::proposal::ProposalOf;

// The numbers of a set as a file states them, of which no rule is promised.
pub type Draft = ProposalOf<Lengths>;
