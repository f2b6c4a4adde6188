// A message sealed to a key's polynomials.
ghost use Rattle.std.specs.Prelude.{◌≡◌, ◌+◌, ◌/◌, length, Ok, Err, MatchResult};
ghost use Rattle.params.specs.Sizes.{parcel_length};
ghost use Rattle.ring.specs.Lists.{words_q, words_p};
ghost use Rattle.scheme.specs.Scheme.{encrypted, l_of, parcel_from};

use crate::expand::expand_positions;
use crate::hashes::sealing_of;
use crate::secret::Secret;
use params::MOST;
use params::set::Set;
use ring::{Coefficient, Rounded, Symbol};
use sampler::SamplerFault;
use source::Source;
use wire::write_parcel;

impl Secret<'_> {
    // Writes the parcel of a message, with the station's secret: u, the rounded reduced product of a and the secret, and the symbols v that
    // hide the message.
    fn make_parcel(
        &self,
        a: &[Coefficient],
        b: &[Rounded],
        message: &[u8],
        tag: &[u8; 32],
        product: &mut [u16],
        parcel: &mut [u8],
    )
        requires a { length a.now ≡ self.now.set.now.n }
        requires b { length b.now ≡ self.now.set.now.n }
        requires message { length message.now ≡ self.now.set.now.code.shape.kappa / 8 }
        requires room { length product.old ≡ self.now.set.now.n + 1 }
        requires parcel { length parcel.old ≡ parcel_length self.now.set.now }
        ensures { parcel.new ≡ parcel_from self.now.set.now (words_q a.now) (words_p b.now) self.now.positions.now message.now tag.now }
    {
        let mut u = [Rounded(0); MOST];
        let mut v = [Symbol(0); MOST];
        let u = &mut u[0..self.set.n as usize];
        let v = &mut v[0..self.set.code.mu as usize];
        self.round_times(a, product, u);
        self.hide_message(b, message, product, v);
        write_parcel(self.set, u, v, tag, parcel);
    }
}

/// Seals a message to a key whose polynomials are a and b: writes the parcel, and answers l, from which the secret comes. Seal and open have
/// tested or made all of these lengths.
// Kept: the areas are slices of h and of n + 1 words, since a struct around them would promise at each call that its set is as before.
pub fn encrypt<S: Source>(
    set: &Set,
    source: &mut S,
    a: &[Coefficient],
    b: &[Rounded],
    key: &[u8],
    message: &[u8],
    parcel: &mut [u8],
    secret: &mut [u16],
    product: &mut [u16],
) -> Result<[u8; 32], SamplerFault>
    requires a { length a.now ≡ set.now.n }
    requires b { length b.now ≡ set.now.n }
    requires message { length message.now ≡ set.now.code.shape.kappa / 8 }
    requires parcel { length parcel.old ≡ parcel_length set.now }
    requires secret { length secret.old ≡ set.now.h }
    requires room { length product.old ≡ set.now.n + 1 }
    ensures book { S.book source.new ≡ S.book source.old }
    ensures cases { MatchResult result
        (λ l. (encrypted (S.book source.old) set.now (words_q a.now) (words_p b.now) key.now message.now ≡ Ok parcel.new) × (l ≡ l_of message.now key.now))
        (λ e. (encrypted (S.book source.old) set.now (words_q a.now) (words_p b.now) key.now message.now ≡ Err e) × (parcel.new ≡ parcel.old)) }
{
    let sealing = sealing_of(message, key);
    expand_positions(set, source, &sealing.seed, secret)?;
    let secret = Secret {
        set,
        positions: secret,
    };
    secret.make_parcel(a, b, message, &sealing.tag, product, parcel);
    Ok(sealing.l)
}
