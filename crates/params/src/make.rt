// Making a set.
ghost use Rattle.std.specs.Prelude.{◌≡◌, ◌≤◌, MatchResult};
ghost use Rattle.params.specs.Limits.{most_n};
ghost use Rattle.params.specs.Checks.{CodeRule, symbol_count};
ghost use Rattle.params.specs.Rules.{Keeps, Lawful, NamesPair, Told};
ghost use Rattle.params.specs.declared.proposal.Rule.TheVariants.{Exponents, Balance};
ghost use Rattle.params.specs.Made.{Holds};
ghost use Rattle.params.specs.declared.proposal.SetFault.TheVariants.{Broken};

use crate::blocks::Layout;
use crate::code::Code;
use crate::moduli::Moduli;
use crate::proposal::{Proposal, Rule, SetFault};
use crate::rules::judge;
use crate::set::Set;

// Kept: faults are kept whole and turned by From.
impl From<Rule> for SetFault {
    ghost from_gives = { λ rule fault. fault ≡ Broken rule };

    fn from(rule: Rule) -> SetFault {
        SetFault::Broken(rule)
    }
}

// The moduli that are proposed.
fn lawful_moduli(p: &Proposal) -> Moduli
    requires exponents { Keeps Exponents p.now }
    requires balance { Keeps Balance p.now }
    ensures { (result.qb ≡ p.now.qb) × (result.pb ≡ p.now.pb) × (result.tb ≡ p.now.tb) }
{
    Moduli {
        qb: p.qb as u32,
        pb: p.pb as u32,
        tb: p.tb as u32,
    }
}

// The code that is laid out, if it keeps the code rule.
fn lawful_code(layout: &Layout, mu: u16) -> Result<Code, SetFault>
    requires count { mu ≡ symbol_count layout.now.shape }
    requires short { mu ≤ most_n }
    ensures { MatchResult result (λ c. CodeRule layout.now.shape × (c.shape ≡ layout.now.shape) × (c.mu ≡ mu)) (λ e. NamesPair e layout.now.shape) }
{
    let shape = layout.shape;
    match layout.shared_pair() {
        Some(d) => Err(SetFault::Shared(0, d)),
        None => Ok(Code { shape, mu }),
    }
}

impl Set {
    // Makes the set that is proposed: Ok exactly if the proposal is lawful, and then the set holds what was proposed.
    pub fn make(proposal: &Proposal) -> Result<Set, SetFault>
        ensures { MatchResult result (λ s. Lawful proposal.now × Holds s proposal.now) (λ e. Told e proposal.now × (Lawful proposal.now → ⊥)) }
    {
        let (layout, mu) = judge(proposal)?;
        let moduli = lawful_moduli(proposal);
        let code = lawful_code(&layout, mu)?;
        Ok(Set {
            n: proposal.n,
            h: proposal.h,
            moduli,
            code,
        })
    }
}
