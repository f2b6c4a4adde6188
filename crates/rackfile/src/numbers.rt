// The numbers of a set, taken from it and proposed again.
ghost use Rattle.std.specs.Prelude.{◌≡◌, ◌*◌, ◌≤◌};
ghost use Rattle.params.specs.Limits.{most_checks};
ghost use Rattle.rackfile.specs.Sets.{kept_lengths, numbers_of, proposed, Proposes, LawfulNumbers};

use crate::image::Numbers;
use params::MOST_CHECKS;
use params::proposal::{Proposal, ProposalOf};
use params::set::Set;
use params::shape::Shape;

// The check lengths of a code, and zeros in the rest of the table.
fn keep_lengths(shape: &Shape) -> [u16; MOST_CHECKS]
    requires { 2 * shape.now.f ≤ most_checks }
    ensures { result ≡ kept_lengths shape.now }
{
    let mut table = [0u16; MOST_CHECKS];
    let count = 2 * shape.f as usize;
    table[0..count].copy_from_slice(&shape.lengths[0..count]);
    table
}

/// The numbers of a set. Every proposal that has them is lawful, so the set can be made again.
pub fn numbers_of(set: &Set) -> Numbers
    ensures value { result ≡ numbers_of set.now }
    ensures lawful { LawfulNumbers result }
{
    ProposalOf {
        n: set.n,
        h: set.h,
        qb: set.moduli.qb as u16,
        pb: set.moduli.pb as u16,
        tb: set.moduli.tb as u16,
        kappa: set.code.shape.kappa,
        f: set.code.shape.f,
        block: set.code.shape.block,
        lengths: keep_lengths(&set.code.shape),
    }
}

// The check lengths: two for each flip, or the whole table where that is more.
fn check_lengths(numbers: &Numbers) -> &[u16]
    ensures { result.now ≡ proposed numbers.now }
{
    let count = 2 * numbers.f as usize;
    &numbers.lengths[0..count.min(MOST_CHECKS)]
}

/// The proposal of a set with these numbers.
pub fn proposal_of(numbers: &Numbers) -> Proposal<'_>
    ensures { Proposes result numbers.now }
{
    numbers.with_lengths(check_lengths(numbers))
}
