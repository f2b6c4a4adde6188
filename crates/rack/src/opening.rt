// Open, without its guards.
ghost use Rattle.std.specs.Prelude.{◌≡◌, ◌+◌, Bool, length, if◌then◌else◌, Ok, Err, MatchResult, ◌==◌, nat_eq};
ghost use Rattle.calls.specs.Chains.{Answers};
ghost use Rattle.scheme.specs.Scheme.{secret_from};
ghost use Rattle.rack.specs.Calls.{same, opening, open_checks, opened};

use crate::keys::remake_key;
use crate::rack::Rack;
use crate::record::Coins;
use calls::{Buffer, Input, Refusal, expect, expect_areas};
use params::MOST;
use params::set::Set;
use ring::{Coefficient, Rounded};
use sampler::SamplerFault;
use scheme::{Secret, encrypt, secret_from};
use source::Source;
use wire::Parcel;

// The longest key: n fields of 15 bits.
const LONGEST_KEY: usize = 33 + MOST * 15 / 8;

// The longest parcel: n fields of 15 bits and as many symbols of 14.
const LONGEST_PARCEL: usize = 33 + MOST * 29 / 8;

// The longest message.
const LONGEST_MESSAGE: usize = 32;

// What two parcels differ in, taken together with no early exit: 0 if they are the same.
fn difference(first: &[u8], second: &[u8]) -> u8
    requires { length first.now ≡ length second.now }
    ensures { (result == 0) ≡ same first.now second.now }
{
    first
        .iter()
        .zip(second)
        .fold(0, |all, (x, y)| all | (*x ^ *y))
}

// All bits clear for a difference of 0, else all set; with no branch.
fn mask_of(difference: u8) -> u8
    ensures { result ≡ (if nat_eq difference 0 then 0 else 255) }
{
    ((difference as u16 + 255) / 256 * 255) as u8
}

// The first byte where the mask is clear, the second where it is set; with no branch.
fn pick(mask: u8, first: u8, second: u8) -> u8
    ensures { (t : Bool) → mask ≡ (if t then 0 else 255) → result ≡ (if t then first else second) }
{
    first ^ (mask & (first ^ second))
}

// Leaves l as it is where the difference is 0, and else puts z in its place.
fn choose(difference: u8, l: &mut [u8; 32], z: &[u8; 32])
    ensures { l.new ≡ (if nat_eq difference 0 then l.old else z.now) }
{
    let mask = mask_of(difference);
    for (i, x) in l.iter_mut().enumerate() {
        *x = pick(mask, *x, z[i]);
    }
}

// The secret: from l if the parcel made again is the one given, else from z.
fn decide(again: &[u8], parcel: &[u8], l: &[u8; 32], z: &[u8; 32], out: &mut [u8])
    requires same { length again.now ≡ length parcel.now }
    requires out { length out.old ≡ 32 }
    ensures { out.new ≡ secret_from (if same again.now parcel.now then l.now else z.now) parcel.now }
{
    let mut chosen = *l;
    choose(difference(again, parcel), &mut chosen, z);
    secret_from(&chosen, parcel, out);
}

// The secret that coins make of a parcel.
fn open_parcel<S: Source>(
    source: &mut S,
    coins: &Coins,
    parcel: &Parcel<'_>,
    out: &mut [u8],
    secret: &mut [u16],
    product: &mut [u16],
) -> Result<(), SamplerFault>
    requires out { length out.old ≡ 32 }
    requires secret { length secret.old ≡ parcel.now.set.now.h }
    requires product { length product.old ≡ parcel.now.set.now.n + 1 }
    ensures book { S.book source.new ≡ S.book source.old }
    ensures cases { MatchResult result
        (λ _. opening (S.book source.old) parcel.now.set.now coins.now parcel.now.bytes.now ≡ Ok out.new)
        (λ e. (opening (S.book source.old) parcel.now.set.now coins.now parcel.now.bytes.now ≡ Err e) × (out.new ≡ out.old)) }
{
    let set = parcel.set;
    let n = set.n as usize;
    let mut a = [Coefficient(0); MOST];
    let mut b = [Rounded(0); MOST];
    let mut key = [0u8; LONGEST_KEY];
    let mut message = [0u8; LONGEST_MESSAGE];
    let mut again = [0u8; LONGEST_PARCEL];
    let a = &mut a[0..n];
    let b = &mut b[0..n];
    let key = &mut key[0..set.key_len()];
    let message = &mut message[0..set.code.shape.kappa as usize / 8];
    let again = &mut again[0..set.parcel_len()];
    remake_key(set, source, coins, key, secret, product, a, b)?;
    let till = Secret {
        set,
        positions: secret,
    };
    till.find_message(parcel, product, message);
    let l = encrypt(set, source, a, b, key, message, again, secret, product)?;
    decide(again, parcel.bytes, &l, &coins.z, out);
    Ok(())
}

// Everything that open tests of its buffers and its parcel, in the order of the refusals; and the parcel.
fn check_open<'p>(
    set: &'p Set,
    secret: usize,
    secret_words: usize,
    product_words: usize,
    parcel: &'p [u8],
) -> Result<Parcel<'p>, Refusal>
    ensures { MatchResult result
        (λ given. (open_checks set.now secret secret_words product_words parcel.now ≡ Ok tt) × (given.set.now ≡ set.now) × (given.bytes.now ≡ parcel.now))
        (λ e. open_checks set.now secret secret_words product_words parcel.now ≡ Err e) }
{
    expect(secret, 32, Refusal::WrongBuffer(Buffer::SecretOutput))?;
    expect_areas(secret_words, product_words)?;
    expect(
        parcel.len(),
        set.parcel_len(),
        Refusal::WrongInput(Input::First, parcel.len()),
    )?;
    Ok(Parcel::check(set, parcel)?)
}

impl<S: Source> Rack<S> {
    pub(crate) fn open_within(
        &mut self,
        place: u8,
        parcel: &[u8],
        out: &mut [u8],
        secret: &mut [u16],
        product: &mut [u16],
    ) -> Result<(), Refusal>
        ensures kept { (self.new.set ≡ self.old.set) × (S.book self.new.source ≡ S.book self.old.source) }
        ensures places { self.new.places ≡ self.old.places }
        ensures cases { Answers result
            (opened (S.book self.old.source) self.old.set self.old.places place (length out.old) (length secret.old) (length product.old) parcel.now)
            out.new out.old }
    {
        let coins = self.find_coins(place)?;
        let parcel = check_open(&self.set, out.len(), secret.len(), product.len(), parcel)?;
        let h = self.set.h as usize;
        let words = self.set.n as usize + 1;
        open_parcel(
            &mut self.source,
            &coins,
            &parcel,
            out,
            &mut secret[0..h],
            &mut product[0..words],
        )?;
        Ok(())
    }
}
