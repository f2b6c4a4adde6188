// What a draft proposes for a set.
ghost use Rattle.setfile.specs.Proposed.{Proposes};

use crate::draft::Draft;
use params::proposal::Proposal;

// The proposal that a draft makes.
pub fn proposal(draft: &Draft) -> Proposal<'_>
    ensures { Proposes result draft.now }
{
    draft.with_lengths(draft.lengths.given())
}
