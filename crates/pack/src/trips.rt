// The round trips: as theorems over every width, and through the calls themselves, for every sort and every set.
ghost use Rattle.std.specs.Prelude.{◌≡◌, ◌+◌, ◌*◌, ◌^◌, ◌<◌, length, Ok, MatchResult};
ghost use Rattle.std.specs.List.{AllByRecursion};
ghost use Rattle.params.specs.Sizes.{bytes_for};
ghost use Rattle.pack.specs.Trips.{UnpacksPacked, PacksUnpacked, Worked};

use crate::field::Field;
use crate::reader::{PackFault, unpack};
use crate::writer::pack;
use params::moduli::Moduli;

// Unpacking what was packed gives it back, packing what was unpacked gives the same bytes, and one run worked through.
#[tactic(auto, using(crate::proofs::Laws::unpacks_packed, crate::proofs::Laws::packs_unpacked, crate::proofs::Laws::worked))]
pub fn round_trips()
    ensures unpacks { UnpacksPacked }
    ensures packs { PacksUnpacked }
    ensures worked { Worked }
{}

// Packs fields and unpacks them again: they are the same. Every caller lends lists of the lengths of xs and ys, and fields below 2 to their width.
pub fn pack_unpack<F: Field, G: Field>(
    moduli: Moduli,
    xs: &[F],
    ys: &[G],
    bytes: &mut [u8],
    us: &mut [F],
    vs: &mut [G],
) -> Result<(), PackFault>
    requires room { length bytes.old ≡ bytes_for (length xs.now * F.width moduli + length ys.now * G.width moduli) }
    requires same { (length us.old ≡ length xs.now) × (length vs.old ≡ length ys.now) }
    requires below { (AllByRecursion (λ x. F.bare x < 2 ^ F.width moduli) xs.now) × (AllByRecursion (λ y. G.bare y < 2 ^ G.width moduli) ys.now) }
    ensures ok { result ≡ Ok tt }
    ensures first { us.new ≡ xs.now }
    ensures second { vs.new ≡ ys.now }
{
    pack(moduli, xs, ys, bytes);
    unpack(moduli, bytes, us, vs)
}

// Unpacks bytes and packs the fields again: the bytes are the same. Every caller lends as many bytes again.
pub fn unpack_pack<F: Field, G: Field>(
    moduli: Moduli,
    bytes: &[u8],
    xs: &mut [F],
    ys: &mut [G],
    again: &mut [u8],
) -> Result<(), PackFault>
    requires room { length bytes.now ≡ bytes_for (length xs.old * F.width moduli + length ys.old * G.width moduli) }
    requires same { length again.old ≡ length bytes.now }
    ensures { MatchResult result (λ _. again.new ≡ bytes.now) (λ _. again.new ≡ again.old) }
{
    unpack(moduli, bytes, xs, ys)?;
    pack(moduli, xs, ys, again);
    Ok(())
}
