// Keys: written, checked and read.
ghost use Rattle.std.specs.Prelude.{◌≡◌, ◌+◌, length, take, drop, Ok, Err, MatchResult};
ghost use Rattle.params.specs.Sizes.{key_length};
ghost use Rattle.ring.specs.Lists.{words_p};
ghost use Rattle.pack.specs.Bits.{Below};
ghost use Rattle.pack.specs.Packing.{fields_at};
ghost use Rattle.wire.specs.Keys.{key_bytes, key_seed, key_b, key_rest, key_content, key_form};

use crate::fault::{WireFault, check_run};
use pack::{fields, pack};
use params::set::Set;
use ring::{Rounded, Symbol};

// Writes the key of a seed and b. Every call hands n coefficients and lends a key's bytes.
pub fn write_key(set: &Set, seed: &[u8; 32], b: &[Rounded], out: &mut [u8])
    requires fields { length b.now ≡ set.now.n }
    requires room { length out.old ≡ key_length set.now }
    ensures { out.new ≡ key_bytes set.now seed.now (words_p b.now) }
{
    let none: [Symbol; 0] = [];
    out[1..33].copy_from_slice(seed);
    pack(set.moduli, b, &none, &mut out[33..]);
    out[0] = 0x4B;
}

// Refuses what follows a key's kind byte if a fill bit is not zero.
fn check_key_rest(set: &Set, rest: &[u8]) -> Result<(), WireFault>
    requires { length rest.now + 1 ≡ key_length set.now }
    ensures { result ≡ key_rest set.now rest.now }
{
    check_run(set.moduli, set.n as usize, 0, &rest[32..])
}

// Refuses a wrong kind byte, and then a fill bit that is not zero. Every call has tested the length.
// Kept: the same steps as a parcel's, since the pattern that tells a key names its kind byte and chooses what reads the rest.
#[tactic(auto, unfolding(crate::specs::Keys::key_content))]
pub fn check_key_content(set: &Set, key: &[u8]) -> Result<(), WireFault>
    requires { length key.now ≡ key_length set.now }
    ensures { result ≡ key_content set.now key.now }
{
    match key {
        [0x4B, rest @ ..] => check_key_rest(set, rest),
        [kind, ..] => Err(WireFault::Kind(*kind)),
        [] => Err(WireFault::Length(0)),
    }
}

// Refuses what is no key of the set: for a wrong length first, then a wrong kind byte, then a fill bit that is not zero.
pub fn check_key(set: &Set, key: &[u8]) -> Result<(), WireFault>
    ensures { result ≡ key_form set.now key.now }
{
    if key.len() != set.key_len() {
        return Err(WireFault::Length(key.len()));
    }
    check_key_content(set, key)
}

// Reads what follows a key's kind byte.
fn read_key_rest(set: &Set, rest: &[u8], seed: &mut [u8; 32], b: &mut [Rounded])
    requires long { length rest.now + 1 ≡ key_length set.now }
    requires room { length b.old ≡ set.now.n }
    ensures seed { seed.new ≡ take 32 rest.now }
    ensures fields { words_p b.new ≡ fields_at 0 set.now.n set.now.moduli.pb (drop 32 rest.now) }
    ensures bytes { Below 256 rest.now }
{
    let mut none: [Symbol; 0] = [];
    seed.copy_from_slice(&rest[0..32]);
    fields(set.moduli, &rest[32..], b, &mut none);
}

// Bytes that are a key of a set. Whoever holds one need not test them again.
#[derive(Clone, Copy)]
pub struct Key<'a> {
    pub set: &'a Set,
    pub bytes: &'a [u8],
    pub ghost long: { length bytes.now ≡ key_length set.now },
    pub ghost content: { key_content set.now bytes.now ≡ Ok tt },
}

impl<'a> Key<'a> {
    // The key that bytes are, or why they are none. Every call has tested the length.
    pub fn check(set: &'a Set, bytes: &'a [u8]) -> Result<Key<'a>, WireFault>
        requires { length bytes.now ≡ key_length set.now }
        ensures { MatchResult result
            (λ key. (key.set.now ≡ set.now) × (key.bytes.now ≡ bytes.now) × (key_content set.now bytes.now ≡ Ok tt))
            (λ e. key_content set.now bytes.now ≡ Err e) }
    {
        check_key_content(set, bytes)?;
        Ok(Key { set, bytes })
    }

    // Reads the parts of the key. Every call lends n coefficients.
    #[tactic(auto, using(crate::proofs::KeyLaws::key_content_kind))]
    pub fn read(&self, seed: &mut [u8; 32], b: &mut [Rounded])
        requires { length b.old ≡ self.now.set.now.n }
        ensures seed { seed.new ≡ key_seed self.now.bytes.now }
        ensures fields { words_p b.new ≡ key_b self.now.set.now self.now.bytes.now }
        ensures again { key_bytes self.now.set.now seed.new (words_p b.new) ≡ self.now.bytes.now }
    {
        match self.bytes {
            [0x4B, rest @ ..] => read_key_rest(self.set, rest, seed, b),
            _ => unreachable(),
        }
    }
}
