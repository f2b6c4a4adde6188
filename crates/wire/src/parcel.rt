// Parcels: written, checked and read.
ghost use Rattle.std.specs.Prelude.{◌≡◌, ◌+◌, ◌-◌, ◌*◌, length, drop, Ok, Err, MatchResult};
ghost use Rattle.params.specs.Sizes.{parcel_length};
ghost use Rattle.ring.specs.Lists.{words_p, words_t};
ghost use Rattle.pack.specs.Bits.{Below};
ghost use Rattle.pack.specs.Packing.{fields_at};
ghost use Rattle.wire.specs.Parcels.{parcel_bytes, parcel_u, parcel_v, parcel_tag, run_of, parcel_rest, parcel_content, parcel_form};

use crate::fault::{WireFault, check_run};
use pack::{fields, pack};
use params::set::Set;
use ring::{Rounded, Symbol};

// Writes the parcel of u, v and a tag. Every call hands n coefficients and a symbol for each of μ, and lends a parcel's bytes.
#[tactic(auto, using(crate::proofs::Parts::put_parts), unfolding(crate::specs::Parcels::parcel_bytes))]
pub fn write_parcel(set: &Set, u: &[Rounded], v: &[Symbol], tag: &[u8; 32], out: &mut [u8])
    requires first { length u.now ≡ set.now.n }
    requires second { length v.now ≡ set.now.code.mu }
    requires room { length out.old ≡ parcel_length set.now }
    ensures { out.new ≡ parcel_bytes set.now (words_p u.now) (words_t v.now) tag.now }
{
    let end = out.len() - 32;
    pack(set.moduli, u, v, &mut out[1..end]);
    out[end..].copy_from_slice(tag);
    out[0] = 0x50;
}

// Refuses what follows a parcel's kind byte if a fill bit is not zero.
fn check_parcel_rest(set: &Set, rest: &[u8]) -> Result<(), WireFault>
    requires { length rest.now + 1 ≡ parcel_length set.now }
    ensures { result ≡ parcel_rest set.now rest.now }
{
    check_run(
        set.moduli,
        set.n as usize,
        set.code.mu as usize,
        &rest[0..rest.len() - 32],
    )
}

// Refuses a wrong kind byte, and then a fill bit that is not zero. Every call has tested the length.
// Kept: the same steps as a key's, since the pattern that tells a parcel names its kind byte and chooses what reads the rest.
#[tactic(auto, unfolding(crate::specs::Parcels::parcel_content))]
pub fn check_parcel_content(set: &Set, parcel: &[u8]) -> Result<(), WireFault>
    requires { length parcel.now ≡ parcel_length set.now }
    ensures { result ≡ parcel_content set.now parcel.now }
{
    match parcel {
        [0x50, rest @ ..] => check_parcel_rest(set, rest),
        [kind, ..] => Err(WireFault::Kind(*kind)),
        [] => Err(WireFault::Length(0)),
    }
}

// Refuses what is no parcel of the set: for a wrong length first, then a wrong kind byte, then a fill bit that is not zero.
pub fn check_parcel(set: &Set, parcel: &[u8]) -> Result<(), WireFault>
    ensures { result ≡ parcel_form set.now parcel.now }
{
    if parcel.len() != set.parcel_len() {
        return Err(WireFault::Length(parcel.len()));
    }
    check_parcel_content(set, parcel)
}

// Reads what follows a parcel's kind byte.
fn read_parcel_rest(set: &Set, rest: &[u8], u: &mut [Rounded], v: &mut [Symbol], tag: &mut [u8; 32])
    requires long { length rest.now + 1 ≡ parcel_length set.now }
    requires first { length u.old ≡ set.now.n }
    requires second { length v.old ≡ set.now.code.mu }
    ensures first { words_p u.new ≡ fields_at 0 set.now.n set.now.moduli.pb (run_of rest.now) }
    ensures second { words_t v.new ≡ fields_at (set.now.n * set.now.moduli.pb) set.now.code.mu set.now.moduli.tb (run_of rest.now) }
    ensures tag { tag.new ≡ drop (length rest.now - 32) rest.now }
    ensures bytes { Below 256 rest.now }
{
    let end = rest.len() - 32;
    fields(set.moduli, &rest[0..end], u, v);
    tag.copy_from_slice(&rest[end..]);
}

// Bytes that are a parcel of a set. Whoever holds one need not test them again.
#[derive(Clone, Copy)]
pub struct Parcel<'a> {
    pub set: &'a Set,
    pub bytes: &'a [u8],
    pub ghost long: { length bytes.now ≡ parcel_length set.now },
    pub ghost content: { parcel_content set.now bytes.now ≡ Ok tt },
}

impl<'a> Parcel<'a> {
    // The parcel that bytes are, or why they are none. Every call has tested the length.
    pub fn check(set: &'a Set, bytes: &'a [u8]) -> Result<Parcel<'a>, WireFault>
        requires { length bytes.now ≡ parcel_length set.now }
        ensures { MatchResult result
            (λ parcel. (parcel.set.now ≡ set.now) × (parcel.bytes.now ≡ bytes.now) × (parcel_content set.now bytes.now ≡ Ok tt))
            (λ e. parcel_content set.now bytes.now ≡ Err e) }
    {
        check_parcel_content(set, bytes)?;
        Ok(Parcel { set, bytes })
    }

    // Reads the parts of the parcel. Every call lends n coefficients and μ symbols.
    #[tactic(auto, using(crate::proofs::ParcelLaws::parcel_content_kind))]
    pub fn read(&self, u: &mut [Rounded], v: &mut [Symbol], tag: &mut [u8; 32])
        requires first { length u.old ≡ self.now.set.now.n }
        requires second { length v.old ≡ self.now.set.now.code.mu }
        ensures first { words_p u.new ≡ parcel_u self.now.set.now self.now.bytes.now }
        ensures second { words_t v.new ≡ parcel_v self.now.set.now self.now.bytes.now }
        ensures tag { tag.new ≡ parcel_tag self.now.bytes.now }
        ensures again { parcel_bytes self.now.set.now (words_p u.new) (words_t v.new) tag.new ≡ self.now.bytes.now }
    {
        match self.bytes {
            [0x50, rest @ ..] => read_parcel_rest(self.set, rest, u, v, tag),
            _ => unreachable(),
        }
    }
}
