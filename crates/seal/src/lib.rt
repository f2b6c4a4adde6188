// The station's call: a message is sealed to a till's key.
#![tactic(auto)]

ghost use Rattle.std.specs.Prelude.{◌≡◌, ◌+◌, ◌/◌, length, Ok, Err, MatchResult};
ghost use Rattle.params.specs.Sizes.{parcel_length};
ghost use Rattle.calls.specs.Areas.{zeros};
ghost use Rattle.calls.specs.Chains.{Answers};
ghost use Rattle.seal.specs.Seal.{both, seal_checks, sealing, sealed};

use calls::{Buffer, Input, Refusal, Wiped, expect, expect_areas};
use params::MOST;
use params::set::Set;
use ring::{Coefficient, Rounded};
use sampler::SamplerFault;
use scheme::{encrypt, expand_polynomial, secret_from};
use source::Source;
use wire::Key;

// Everything that is tested before any work, in the order of the refusals: answers the key that the bytes are.
fn check_seal<'a>(
    set: &'a Set,
    parcel: usize,
    secret: usize,
    secret_words: usize,
    product_words: usize,
    key: &'a [u8],
    message: &[u8],
) -> Result<Key<'a>, Refusal>
    ensures { MatchResult result
        (λ k. (k.set.now ≡ set.now) × (k.bytes.now ≡ key.now) × (seal_checks set.now parcel secret secret_words product_words key.now message.now ≡ Ok tt))
        (λ e. seal_checks set.now parcel secret secret_words product_words key.now message.now ≡ Err e) }
{
    expect(
        parcel,
        set.parcel_len(),
        Refusal::WrongBuffer(Buffer::Output),
    )?;
    expect(secret, 32, Refusal::WrongBuffer(Buffer::SecretOutput))?;
    expect_areas(secret_words, product_words)?;
    expect(
        key.len(),
        set.key_len(),
        Refusal::WrongInput(Input::First, key.len()),
    )?;
    expect(
        message.len(),
        set.code.shape.kappa as usize / 8,
        Refusal::WrongInput(Input::Second, message.len()),
    )?;
    Ok(Key::check(set, key)?)
}

// With the parts of the working areas that the set takes.
// Kept: these are slices of h and of n + 1 words, since a struct around them would promise at each call that its set is as before.
fn seal_in<S: Source>(
    source: &mut S,
    key: &Key<'_>,
    message: &[u8],
    parcel: &mut [u8],
    secret_out: &mut [u8],
    secret: &mut [u16],
    product: &mut [u16],
) -> Result<(), SamplerFault>
    requires message { length message.now ≡ key.now.set.now.code.shape.kappa / 8 }
    requires parcel { length parcel.old ≡ parcel_length key.now.set.now }
    requires out { length secret_out.old ≡ 32 }
    requires secret { length secret.old ≡ key.now.set.now.h }
    requires product { length product.old ≡ key.now.set.now.n + 1 }
    ensures book { S.book source.new ≡ S.book source.old }
    ensures cases { MatchResult result
        (λ _. sealing (S.book source.old) key.now.set.now key.now.bytes.now message.now ≡ Ok (both parcel.new secret_out.new))
        (λ e. (sealing (S.book source.old) key.now.set.now key.now.bytes.now message.now ≡ Err e) × (parcel.new ≡ parcel.old) × (secret_out.new ≡ secret_out.old)) }
{
    let set = key.set;
    let n = set.n as usize;
    let mut seed = [0u8; 32];
    let mut a = [Coefficient(0); MOST];
    let mut b = [Rounded(0); MOST];
    let a = &mut a[0..n];
    let b = &mut b[0..n];
    key.read(&mut seed, b);
    expand_polynomial(set, source, &seed, product, a)?;
    let l = encrypt(
        set, source, a, b, key.bytes, message, parcel, secret, product,
    )?;
    secret_from(&l, parcel, secret_out);
    Ok(())
}

/// Seals a message to a key: writes the parcel and the station's secret. Both working areas are all zeros on every way out; on a refusal
/// parcel and secret are as before.
pub fn seal<S: Source>(
    set: &Set,
    source: &mut S,
    key: &[u8],
    message: &[u8],
    parcel: &mut [u8],
    secret_out: &mut [u8],
    secret_area: &mut [u16],
    product_area: &mut [u16],
) -> Result<(), Refusal>
    ensures book { S.book source.new ≡ S.book source.old }
    ensures secret_wiped { secret_area.new ≡ zeros secret_area.old }
    ensures product_wiped { product_area.new ≡ zeros product_area.old }
    ensures cases { Answers result
        (sealed (S.book source.old) set.now (length parcel.old) (length secret_out.old) (length secret_area.old) (length product_area.old) key.now message.now)
        (both parcel.new secret_out.new) (both parcel.old secret_out.old) }
{
    let secret_area = Wiped { area: secret_area };
    let product_area = Wiped { area: product_area };
    let key = check_seal(
        set,
        parcel.len(),
        secret_out.len(),
        secret_area.area.len(),
        product_area.area.len(),
        key,
        message,
    )?;
    let secret = &mut secret_area.area[0..set.h as usize];
    let product = &mut product_area.area[0..set.n as usize + 1];
    seal_in(source, &key, message, parcel, secret_out, secret, product)?;
    Ok(())
}
