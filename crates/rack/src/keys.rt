// The key of coins, made anew from their seeds.
ghost use Rattle.std.specs.Prelude.{◌≡◌, ◌+◌, length, Ok, Err, MatchResult};
ghost use Rattle.params.specs.Sizes.{key_length};
ghost use Rattle.ring.specs.Lists.{words_q, words_p};
ghost use Rattle.rack.specs.Calls.{coins_key};
ghost use Rattle.rack.specs.Made.{Remade};

use crate::record::Coins;
use params::MOST;
use params::set::Set;
use ring::{Coefficient, Rounded};
use sampler::SamplerFault;
use scheme::{Secret, expand_polynomial, expand_positions};
use source::Source;
use wire::write_key;

// Kept: key, areas and polynomials are slices cut to the set's lengths, since below the tool there is no heap and the caller lends them.

// The polynomials and the key of coins; the positions of the secret are left in their area.
pub(crate) fn remake_key<S: Source>(
    set: &Set,
    source: &mut S,
    coins: &Coins,
    key: &mut [u8],
    secret: &mut [u16],
    product: &mut [u16],
    a: &mut [Coefficient],
    b: &mut [Rounded],
) -> Result<(), SamplerFault>
    requires key { length key.old ≡ key_length set.now }
    requires secret { length secret.old ≡ set.now.h }
    requires product { length product.old ≡ set.now.n + 1 }
    requires a { length a.old ≡ set.now.n }
    requires b { length b.old ≡ set.now.n }
    ensures book { S.book source.new ≡ S.book source.old }
    ensures cases { MatchResult result
        (λ _. Remade (S.book source.old) set.now coins.now (words_q a.new) (words_p b.new) secret.new key.new)
        (λ e. (coins_key (S.book source.old) set.now coins.now ≡ Err e) × (key.new ≡ key.old)) }
{
    expand_polynomial(set, source, &coins.sigma, product, a)?;
    expand_positions(set, source, &coins.seed, secret)?;
    let till = Secret {
        set,
        positions: secret,
    };
    till.round_times(a, product, b);
    write_key(set, &coins.sigma, b, key);
    Ok(())
}

// The key of coins alone.
pub(crate) fn make_key<S: Source>(
    set: &Set,
    source: &mut S,
    coins: &Coins,
    key: &mut [u8],
    secret: &mut [u16],
    product: &mut [u16],
) -> Result<(), SamplerFault>
    requires key { length key.old ≡ key_length set.now }
    requires secret { length secret.old ≡ set.now.h }
    requires product { length product.old ≡ set.now.n + 1 }
    ensures book { S.book source.new ≡ S.book source.old }
    ensures cases { MatchResult result
        (λ _. coins_key (S.book source.old) set.now coins.now ≡ Ok key.new)
        (λ e. (coins_key (S.book source.old) set.now coins.now ≡ Err e) × (key.new ≡ key.old)) }
{
    let n = set.n as usize;
    let mut a = [Coefficient(0); MOST];
    let mut b = [Rounded(0); MOST];
    remake_key(
        set,
        source,
        coins,
        key,
        secret,
        product,
        &mut a[0..n],
        &mut b[0..n],
    )
}
