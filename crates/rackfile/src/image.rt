// What a rack file holds.
use params::MOST_CHECKS;
use params::proposal::ProposalOf;
use rack::{PLACES, Record};

/// The numbers of a set, of which no rule is promised. The check lengths stand first in their table.
pub type Numbers = ProposalOf<[u16; MOST_CHECKS]>;

/// The numbers of a set, and the places of a rack.
#[derive(Clone, Copy)]
pub struct Image {
    pub numbers: Numbers,
    pub places: [Record; PLACES],
}
