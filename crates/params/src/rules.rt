// The rules of a set, tried in their order.
ghost use Rattle.std.specs.Prelude.{◌≡◌, ℕ, ◌-◌, ◌%◌, ◌<◌, ◌≤◌, ◌++◌, length, replicate, true, false, Decides, MatchResult, slice_index};
ghost use Rattle.params.specs.Limits.{most_kappa, most_flips, most_checks};
ghost use Rattle.params.specs.Checks.{LengthsFit, MarkFits, symbol_count};
ghost use Rattle.params.specs.Rules.{Judged, Keeps, KeepsBelow, LengthFits, LowestBroken, refusal_numbers, rule_number, shape_of};
ghost use Rattle.params.specs.declared.proposal.Rule.TheVariants.{Exponents, Balance, Lengths};

use crate::blocks::Layout;
use crate::proposal::{Proposal, Rule, SetFault};
use crate::shape::Shape;
use crate::{LONGEST_CHECK, MOST_CHECKS, MOST_FLIPS, MOST_KAPPA, MOST_N, WORD_BITS};

impl Rule {
    // The number of the rule.
    pub fn number(self) -> u16
        ensures { result ≡ rule_number self }
    {
        self as u16
    }
}

impl SetFault {
    // The number of the refusal and its values, filled with zeros.
    // Kept: the C interface tells a refusal by these numbers.
    pub fn numbers(self) -> [u16; 3]
        ensures { result ≡ refusal_numbers self ++ replicate (3 - length (refusal_numbers self)) 0 }
    {
        match self {
            SetFault::Broken(rule) => [11, rule.number(), 0],
            SetFault::Shared(lower, upper) => [12, lower, upper],
        }
    }
}

// Whether a number is a multiple of `step` from `least` to `most`.
fn is_multiple(x: u16, step: u16, least: u16, most: u16) -> bool
    requires { 0 < step }
    ensures { Decides result ((least ≤ x) × (x ≤ most) × (x % step ≡ 0)) }
{
    x >= least && x <= most && x % step == 0
}

fn keeps_exponents(p: &Proposal) -> bool
    ensures { Decides result (Keeps Exponents p.now) }
{
    p.tb >= 1 && p.tb < p.pb && p.pb < p.qb && p.qb <= WORD_BITS
}

fn keeps_balance(p: &Proposal) -> bool
    ensures { Decides result (Keeps Balance p.now) }
{
    p.tb as u32 + p.qb as u32 <= 2 * p.pb as u32
}

// Whether each length is from 1 to the longest.
fn lengths_fit(lengths: &[u16]) -> bool
    ensures { Decides result ((k : ℕ) → k < length lengths.now → LengthFits (slice_index lengths.now k)) }
{
    lengths
        .iter()
        .all(|long| *long >= 1 && *long <= LONGEST_CHECK)
}

fn keeps_lengths(p: &Proposal) -> bool
    ensures { Decides result (Keeps Lengths p.now) }
{
    p.lengths.len() == 2 * p.f as usize && lengths_fit(p.lengths)
}

// The table of lengths, filled with zeros.
fn padded(lengths: &[u16]) -> [u16; MOST_CHECKS]
    requires { length lengths.now ≤ most_checks }
    ensures { result ≡ lengths.now ++ replicate (most_checks - length lengths.now) 0 }
{
    let mut table = [0u16; MOST_CHECKS];
    table[..lengths.len()].copy_from_slice(lengths);
    table
}

// The code that is proposed.
fn proposed_shape(p: &Proposal) -> Shape
    requires { length p.now.lengths.now ≤ most_checks }
    ensures { result ≡ shape_of p.now }
{
    Shape {
        kappa: p.kappa,
        f: p.f,
        block: p.block,
        lengths: padded(p.lengths),
    }
}

// Whether the block mark stands only where it may.
fn keeps_mark(shape: &Shape) -> bool
    requires { LengthsFit shape.now }
    ensures { Decides result (MarkFits shape.now) }
{
    !shape.block || (shape.f >= 1 && shape.kappa % shape.lengths[0] == 0)
}

// Goes on where a rule is kept.
fn ask(kept: bool, rule: Rule) -> Result<(), Rule>
    ensures { MatchResult result (λ _. kept ≡ true) (λ r. (r ≡ rule) × (kept ≡ false)) }
{
    if kept { Ok(()) } else { Err(rule) }
}

// Rules 1 to 6, which speak of numbers alone.
fn judge_numbers(p: &Proposal) -> Result<(), Rule>
    ensures { MatchResult result (λ _. KeepsBelow 7 p.now) (λ k. LowestBroken k p.now) }
{
    ask(is_multiple(p.n, 2, 8, MOST_N), Rule::RingSize)?;
    ask(is_multiple(p.h, 2, 2, p.n), Rule::Weight)?;
    ask(keeps_exponents(p), Rule::Exponents)?;
    ask(keeps_balance(p), Rule::Balance)?;
    ask(is_multiple(p.kappa, 8, 8, MOST_KAPPA), Rule::Payload)?;
    ask(p.f <= MOST_FLIPS, Rule::Flips)
}

// All nine rules: the code that is proposed and its symbol count, or the lowest rule that is broken.
pub(crate) fn judge(p: &Proposal) -> Result<(Layout, u16), Rule>
    ensures { MatchResult result (λ s. Judged p.now s.0.shape s.1) (λ k. LowestBroken k p.now) }
{
    judge_numbers(p)?;
    ask(keeps_lengths(p), Rule::Lengths)?;
    let shape = proposed_shape(p);
    ask(keeps_mark(&shape), Rule::BlockMark)?;
    let layout = Layout { shape };
    let mu = layout.count_symbols();
    ask(mu <= p.n, Rule::SymbolCount)?;
    Ok((layout, mu))
}
