// Making a set from the caller's numbers, and telling its facts.
ghost use Rattle.std.specs.Prelude.{◌≡◌, Ok};
ghost use Rattle.keyseal.specs.Exported.{proposal_of, Makes, Exported};
ghost use Rattle.keyseal.specs.Facts.{facts_of};

use crate::layout::{Facts, Numbers};
use crate::told::{tell, tell_fault};
use params::proposal::{Proposal, SetFault};
use params::set::Set;

// The set of the numbers and check lengths given.
// Kept: of what a closure writes nothing is known once a function has taken it, so each exported call matches on its set.
pub(crate) fn make_set(numbers: &Numbers, lengths: &[u16]) -> Result<Set, SetFault>
    ensures { Makes (proposal_of numbers.now lengths.entry) result }
{
    Set::make(&Proposal {
        n: numbers.n,
        h: numbers.h,
        qb: numbers.qb,
        pb: numbers.pb,
        tb: numbers.tb,
        kappa: numbers.kappa,
        f: numbers.f,
        block: numbers.block,
        lengths,
    })
}

// The facts of a set.
fn facts_of(set: &Set) -> Facts
    ensures { result ≡ facts_of set.now }
{
    Facts {
        q: set.moduli.q(),
        p: set.moduli.p(),
        t: set.moduli.t(),
        symbols: set.code.mu as u32,
        message_len: set.code.shape.kappa as u32 / 8,
        key_len: set.key_len() as u32,
        parcel_len: set.parcel_len() as u32,
        bound: set.bound(),
        line_left: set.line_left(),
        line_right: set.line_right(),
        below_line: set.below_line(),
    }
}

/// Makes a set and tells its facts.
#[unsafe(no_mangle)]
pub extern "C" fn keyseal_set(
    numbers: &Numbers,
    lengths: &[u16],
    facts: &mut Facts,
    refusal: &mut [u64; 4],
) -> u32
    ensures { Exported (proposal_of numbers.now lengths.entry) result refusal.new facts.new facts.old (λ s. Ok (facts_of s)) }
{
    match make_set(numbers, lengths) {
        Ok(set) => {
            *facts = facts_of(&set);
            tell(Ok(()), refusal)
        }
        Err(fault) => tell_fault(fault, refusal),
    }
}
