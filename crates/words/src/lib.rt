// What is told of a set: why it is refused, by a number, its values and one plain sentence; and its verdict. Likewise of a call.
#![tactic(auto)]

mod call;

ghost use Rattle.std.specs.Prelude.{◌≡◌, Some};
ghost use Rattle.words.specs.Told.{rule_words, refusal_line, Verdict};

pub use call::buffer_sentence;
use params::proposal::{Rule, SetFault};
use params::set::Set;
use std::fmt;

// Why something was refused, as it is told: of a set, a call, or the bytes of a key or parcel.
#[derive(Clone, Copy)]
pub struct Told<F> {
    pub why: F,
}

// What a rule asks.
pub fn rule_sentence(rule: Rule) -> &'static str
    ensures { result.now ≡ rule_words rule }
{
    match rule {
        Rule::RingSize => "n must be even and from 8 to 1200",
        Rule::Weight => "h must be even, at least 2 and at most n",
        Rule::Exponents => "the exponents must keep 1 <= tb < pb < qb <= 16",
        Rule::Balance => "tb + qb must be at most 2 pb",
        Rule::Payload => "kappa must be a multiple of 8 from 8 to 256",
        Rule::Flips => "f must be at most 5",
        Rule::Lengths => "there must be 2 f check lengths, each from 1 to 255",
        Rule::BlockMark =>
            "the block mark needs an f above 0 and a first length that divides kappa",
        Rule::SymbolCount => "kappa and all lengths together must be at most n",
    }
}

// A set that was not made.
impl fmt::Display for Told<SetFault> {
    ghost output = { λ x. Some (refusal_line x.why) };

    fn fmt<W: fmt::Write>(&self, f: &mut fmt::Formatter<W>) -> fmt::Result {
        let [number, a, b] = self.why.numbers();
        match self.why {
            SetFault::Broken(rule) => write!(f, "refused {number} {a}: {}", rule_sentence(rule)),
            SetFault::Shared(..) => write!(
                f,
                "refused {number} {a} {b}: these two payload positions share two checks"
            ),
        }
    }
}

// The verdict on a set, which says of its bound what is proved and no more.
pub fn verdict(set: &Set) -> &'static str
    ensures { Verdict set.now result.now }
{
    if set.below_line() {
        "below the line: B < q/4"
    } else {
        "not below the line: B >= q/4"
    }
}
