// One coefficient, one symbol, one bit. A word stands for its residue class: it is cut to the modulus here.
ghost use Rattle.std.specs.Prelude.{◌≡◌, ◌-◌, ◌%◌, ◌^◌, ◌≤◌, ◌-ℤ◌, unsigned_abs};
ghost use Rattle.params.specs.Sizes.{q, p};
ghost use Rattle.rounding.specs.Rounding.{h1, h2, rounded, symbol, raw_bit, slip, noise, in_band};

use params::moduli::Moduli;
use ring::{Coefficient, Rounded, Symbol};

// The low bits of a word.
fn low_bits(x: u16, bits: u32) -> u16
    requires { bits ≤ 16 }
    ensures { result ≡ x % 2 ^ bits }
{
    x & ((1u32 << bits) - 1) as u16
}

#[tactic(auto, using(crate::proofs::Powers::shifts))]
fn first_constant(moduli: Moduli) -> u16
    ensures { result ≡ h1 moduli }
{
    1u16 << (moduli.qb - moduli.pb - 1)
}

#[tactic(auto, using(crate::proofs::Powers::shifts))]
fn second_constant(moduli: Moduli) -> u16
    ensures { result ≡ h2 moduli }
{
    (1u16 << (moduli.pb - moduli.tb - 1)) + (1u16 << (moduli.pb - 2)) - first_constant(moduli)
}

// A coefficient before rounding, rounded.
#[tactic(auto, using(crate::proofs::Powers::cut_is), unfolding(crate::specs::Rounding::rounded))]
pub fn round(moduli: Moduli, x: Coefficient) -> Rounded
    ensures { result.0 ≡ rounded moduli (x.0 % q moduli) }
{
    let cut = x.0.wrapping_add(first_constant(moduli)) >> (moduli.qb - moduli.pb);
    Rounded(low_bits(cut, moduli.pb))
}

// The slip of that rounding.
#[tactic(auto, using(crate::proofs::Cuts::slip_is))]
pub fn to_slip(moduli: Moduli, x: Coefficient) -> i32
    ensures { result ≡ slip moduli (x.0 % q moduli) }
{
    let half = first_constant(moduli);
    let rest = low_bits(x.0.wrapping_add(half), moduli.qb - moduli.pb);
    half as i32 - rest as i32
}

// A code bit hidden under a coefficient after rounding.
#[tactic(auto, using(crate::proofs::Cuts::symbol_is))]
pub fn to_symbol(moduli: Moduli, x: Rounded, bit: u8) -> Symbol
    ensures { result.0 ≡ symbol moduli (x.0 % p moduli) bit }
{
    let cut = x.0.wrapping_add(first_constant(moduli)) >> (moduli.pb - moduli.tb);
    Symbol(low_bits(cut.wrapping_add((bit as u16) << (moduli.tb - 1)), moduli.tb))
}

// The bit that is read from a symbol.
#[tactic(auto, using(crate::proofs::Cuts::raw_is))]
pub fn to_raw_bit(moduli: Moduli, v: Symbol, x: Rounded) -> u8
    ensures { result ≡ raw_bit moduli v.0 (x.0 % p moduli) }
{
    let high = v.0 << (moduli.pb - moduli.tb);
    let y = low_bits(
        high.wrapping_sub(x.0).wrapping_add(second_constant(moduli)),
        moduli.pb,
    );
    (y >> (moduli.pb - 1)) as u8
}

// The noise at a place, from the two products of slips. The loop over a whole list hands it entries of at most 2^28 in size.
#[tactic(auto, using(crate::proofs::Cuts::noise_is))]
pub fn to_noise(moduli: Moduli, first: i32, second: i32, x: Rounded) -> i32
    requires first_near { unsigned_abs first ≤ 2 ^ 28 }
    requires second_near { unsigned_abs second ≤ 2 ^ 28 }
    ensures { result ≡ noise moduli (first -ℤ second) (x.0 % p moduli) }
{
    let rest = low_bits(
        x.0.wrapping_add(first_constant(moduli)),
        moduli.pb - moduli.tb,
    );
    let cut = (rest as u32) << (moduli.qb - moduli.pb);
    let middle = 1i32 << (moduli.qb - moduli.tb - 1);
    first - second + middle - cut as i32
}

// Whether noise is in band.
#[tactic(auto, using(crate::proofs::Cuts::band_is))]
pub fn is_in_band(moduli: Moduli, w: i32) -> bool
    ensures { result ≡ in_band moduli w }
{
    let quarter = 1i32 << (moduli.qb - 2);
    let mask = (1i32 << moduli.qb) - 1;
    w.wrapping_add(quarter) & mask < 1i32 << (moduli.qb - 1)
}
