// Seeds expanded for a set.
ghost use Rattle.std.specs.Prelude.{◌≡◌, ◌+◌, length, Ok, Err, MatchResult, OnOk};
ghost use Rattle.ring.specs.Lists.{words_q};
ghost use Rattle.ring.specs.Cyclic.{Within};
ghost use Rattle.scheme.specs.Scheme.{public_polynomial, secret_positions};

use params::set::Set;
use ring::Coefficient;
use sampler::{SamplerFault, expand_public, expand_secret};
use source::Source;

// Words as coefficients before rounding.
#[tactic(auto, using(crate::proofs::Lists::coefficient_words))]
fn coefficients(words: &[u16], out: &mut [Coefficient])
    requires { length out.old ≡ length words.now }
    ensures { words_q out.new ≡ words.now }
{
    for (i, x) in out.iter_mut().enumerate() {
        *x = Coefficient(words[i]);
    }
}

/// Expands a seed to the public polynomial of a set. The product area is room for the values drawn: every call lends n + 1 words of it, and
/// n coefficients.
pub fn expand_polynomial<S: Source>(
    set: &Set,
    source: &mut S,
    seed: &[u8; 32],
    product: &mut [u16],
    out: &mut [Coefficient],
) -> Result<(), SamplerFault>
    requires room { length product.old ≡ set.now.n + 1 }
    requires out { length out.old ≡ set.now.n }
    ensures book { S.book source.new ≡ S.book source.old }
    ensures cases { MatchResult result (λ _. public_polynomial (S.book source.old) set.now seed.now ≡ Ok (words_q out.new)) (λ e. public_polynomial (S.book source.old) set.now seed.now ≡ Err e) }
{
    let n = set.n as usize;
    let words = &mut product[0..n];
    expand_public(source, seed, set.moduli.qb, words)?;
    coefficients(words, out);
    Ok(())
}

/// Expands a seed to the h positions of a secret of a set. Every call lends h words of the secret area.
pub fn expand_positions<S: Source>(
    set: &Set,
    source: &mut S,
    seed: &[u8; 32],
    positions: &mut [u16],
) -> Result<(), SamplerFault>
    requires { length positions.old ≡ set.now.h }
    ensures book { S.book source.new ≡ S.book source.old }
    ensures cases { MatchResult result (λ _. secret_positions (S.book source.old) set.now seed.now ≡ Ok positions.new) (λ e. secret_positions (S.book source.old) set.now seed.now ≡ Err e) }
    ensures within { OnOk result (Within set.now.n positions.new) }
{
    expand_secret(source, seed, set.n, positions)
}
