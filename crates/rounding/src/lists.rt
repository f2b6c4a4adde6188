// Rounding, symbols, raw bits, slips and noise over lent slices. Each contract says what is written where the product area holds the product of a polynomial and a secret.
// Every caller has just made that product, and lends slices of these lengths. (Any words at all are the product of themselves and the secret +1 at 0.)
ghost use Rattle.std.specs.Prelude.{◌≡◌, ℕ, ◌+◌, ◌^◌, ◌<◌, ◌≤◌, List, length, slice_index, slice_index_or, unsigned_abs};
ghost use Rattle.ring.specs.Words.{sub16};
ghost use Rattle.ring.specs.Lists.{words_p, words_t, signed};
ghost use Rattle.ring.specs.Cyclic.{cyclic_words};
ghost use Rattle.rounding.specs.Symbols.{rounded_product, slips, cross_product, symbols, raw_bits, noises, out_of_band};

use crate::elements::{is_in_band, round, to_noise, to_raw_bit, to_slip, to_symbol};
use params::moduli::Moduli;
use ring::{Coefficient, Rounded, Symbol};

// Writes f(i) into each place i of a list.
fn fill_each<T: Copy, F: Fn(usize) -> T>(out: &mut [T], f: F)
    requires { (i : ℕ) → i < length out.old → F.pre f i }
    ensures { (i : ℕ) (d : T) → i < length out.new → F.post f i (slice_index_or out.new i d) }
{
    for (i, place) in out.iter_mut().enumerate() {
        *place = f(i);
    }
}

// Writes f of each coefficient of the reduced product into its place.
fn fill_reduced<T: Copy, F: Fn(Coefficient) -> T>(product: &[u16], out: &mut [T], f: F)
    requires room { length product.now ≡ length out.old + 1 }
    requires called { F.IsAlwaysCallable f }
    ensures { (i : ℕ) (d : T) → i < length out.new → F.post f (record { 0 = sub16 (slice_index product.now i) (slice_index product.now (length out.new)) }) (slice_index_or out.new i d) }
{
    let last = product[out.len()];
    fill_each(out, |i| f(Coefficient(product[i].wrapping_sub(last))));
}

// The reduced product, rounded.
pub fn round_product(moduli: Moduli, product: &[u16], out: &mut [Rounded])
    requires { length product.now ≡ length out.old + 1 }
    ensures { (n : ℕ) (a s : List ℕ) → product.now ≡ cyclic_words n a s → words_p out.new ≡ rounded_product moduli n a s }
{
    fill_reduced(product, out, |x| round(moduli, x));
}

// The slips of that rounding.
pub fn slips(moduli: Moduli, product: &[u16], out: &mut [i32])
    requires { length product.now ≡ length out.old + 1 }
    ensures value { (n : ℕ) (a s : List ℕ) → product.now ≡ cyclic_words n a s → out.new ≡ slips moduli n a s }
    ensures near { (k : ℕ) → unsigned_abs (signed out.new k) ≤ 2 ^ 14 }
{
    fill_reduced(product, out, |x| to_slip(moduli, x));
}

// A symbol for each code bit.
pub fn symbols(moduli: Moduli, product: &[u16], bits: &[u8], out: &mut [Symbol])
    requires one { length out.old ≡ length bits.now }
    requires enough { length out.old ≤ length product.now }
    ensures { (n : ℕ) (b r : List ℕ) → product.now ≡ cyclic_words n b r → words_t out.new ≡ symbols moduli (cross_product moduli n b r) bits.now }
{
    fill_each(out, |i| to_symbol(moduli, Rounded(product[i]), bits[i]));
}

// A raw bit for each symbol.
pub fn raw_bits(moduli: Moduli, sent: &[Symbol], product: &[u16], out: &mut [u8])
    requires one { length out.old ≡ length sent.now }
    requires enough { length out.old ≤ length product.now }
    ensures { (n : ℕ) (b r : List ℕ) → product.now ≡ cyclic_words n b r → out.new ≡ raw_bits moduli (words_t sent.now) (cross_product moduli n b r) }
{
    fill_each(out, |i| to_raw_bit(moduli, sent[i], Rounded(product[i])));
}

// The noise of each symbol, from the two products of slips.
pub fn noise(moduli: Moduli, first: &[i32], second: &[i32], product: &[u16], out: &mut [i32])
    requires first_enough { length out.old ≤ length first.now }
    requires second_enough { length out.old ≤ length second.now }
    requires enough { length out.old ≤ length product.now }
    requires first_near { (k : ℕ) → unsigned_abs (signed first.now k) ≤ 2 ^ 28 }
    requires second_near { (k : ℕ) → unsigned_abs (signed second.now k) ≤ 2 ^ 28 }
    ensures { (n : ℕ) (b r : List ℕ) → product.now ≡ cyclic_words n b r → out.new ≡ noises moduli (length out.old) first.now second.now (cross_product moduli n b r) }
{
    fill_each(
        out,
        |i| to_noise(moduli, first[i], second[i], Rounded(product[i])),
    );
}

// How many symbols are out of band.
#[tactic(auto, unfolding(crate::specs::Symbols::out_of_band))]
pub fn out_of_band(moduli: Moduli, noise: &[i32]) -> usize
    ensures { result ≡ out_of_band moduli noise.now }
{
    let mut count: usize = 0;
    // Kept: a loop that counts over the elements of the slice is the form that the project asks for here.
    for w in noise {
        if !is_in_band(moduli, *w) {
            count += 1;
        }
    }
    count
}
