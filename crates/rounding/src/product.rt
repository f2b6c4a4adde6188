// The product of a polynomial and a secret, with what it is the product of.
ghost use Rattle.std.specs.Prelude.{◌≡◌, ℕ, ◌+◌, ◌^◌, ◌≤◌, length, map, unsigned_abs};
ghost use Rattle.ring.specs.Lists.{words_q, words_p, words_t, signed};
ghost use Rattle.ring.specs.Cyclic.{Within, cyclic_words};
ghost use Rattle.rounding.specs.Symbols.{rounded_product, slips, cross_product, symbols, raw_bits, noises};

use crate::lists::{noise, raw_bits, round_product, slips, symbols};
use params::moduli::Moduli;
use ring::{Coefficient, Operand, Rounded, Symbol, multiply_operands};

// The lent product area: n + 1 words that hold the cyclic product of these n coefficients and this secret, modulo 2^16. Its methods need no premise on the
// words, as the functions over any words do.
#[derive(Drop)]
pub struct Product<'a, R: Operand> {
    pub poly: &'a [R],
    pub secret: &'a [u16],
    pub words: &'a [u16],
    ghost long: { length words.now ≡ length poly.now + 1 },
    ghost holds: { words.now ≡ cyclic_words (length poly.now) (map R.bare poly.now) secret.now },
}

impl<'a, R: Operand> Product<'a, R> {
    // Multiplies in the product area.
    pub fn of(poly: &'a [R], secret: &'a [u16], area: &'a mut [u16]) -> Product<'a, R>
        requires long { length area.old ≡ length poly.now + 1 }
        requires within { Within (length poly.now) secret.now }
        ensures poly { result.poly.now ≡ poly.now }
        ensures secret { result.secret.now ≡ secret.now }
    {
        multiply_operands(poly, secret, area);
        Product {
            poly,
            secret,
            words: area,
        }
    }
}

impl Product<'_, Coefficient> {
    // The reduced product, rounded.
    pub fn round(&self, moduli: Moduli, out: &mut [Rounded])
        requires { length out.old ≡ length self.now.poly.now }
        ensures { words_p out.new ≡ rounded_product moduli (length self.now.poly.now) (words_q self.now.poly.now) self.now.secret.now }
    {
        round_product(moduli, self.words, out);
    }

    // The slips of that rounding.
    pub fn slips(&self, moduli: Moduli, out: &mut [i32])
        requires { length out.old ≡ length self.now.poly.now }
        ensures value { out.new ≡ slips moduli (length self.now.poly.now) (words_q self.now.poly.now) self.now.secret.now }
        ensures near { (k : ℕ) → unsigned_abs (signed out.new k) ≤ 2 ^ 14 }
    {
        slips(moduli, self.words, out);
    }
}

impl Product<'_, Rounded> {
    // A symbol for each code bit.
    pub fn symbols(&self, moduli: Moduli, bits: &[u8], out: &mut [Symbol])
        requires one { length out.old ≡ length bits.now }
        requires enough { length out.old ≤ length self.now.poly.now + 1 }
        ensures { words_t out.new ≡ symbols moduli (cross_product moduli (length self.now.poly.now) (words_p self.now.poly.now) self.now.secret.now) bits.now }
    {
        symbols(moduli, self.words, bits, out);
    }

    // A raw bit for each symbol.
    pub fn raw_bits(&self, moduli: Moduli, sent: &[Symbol], out: &mut [u8])
        requires one { length out.old ≡ length sent.now }
        requires enough { length out.old ≤ length self.now.poly.now + 1 }
        ensures { out.new ≡ raw_bits moduli (words_t sent.now) (cross_product moduli (length self.now.poly.now) (words_p self.now.poly.now) self.now.secret.now) }
    {
        raw_bits(moduli, sent, self.words, out);
    }

    // The noise of each symbol, from the two products of slips.
    pub fn noise(&self, moduli: Moduli, first: &[i32], second: &[i32], out: &mut [i32])
        requires first_enough { length out.old ≤ length first.now }
        requires second_enough { length out.old ≤ length second.now }
        requires enough { length out.old ≤ length self.now.poly.now + 1 }
        requires first_near { (k : ℕ) → unsigned_abs (signed first.now k) ≤ 2 ^ 28 }
        requires second_near { (k : ℕ) → unsigned_abs (signed second.now k) ≤ 2 ^ 28 }
        ensures { out.new ≡ noises moduli (length out.old) first.now second.now (cross_product moduli (length self.now.poly.now) (words_p self.now.poly.now) self.now.secret.now) }
    {
        noise(moduli, first, second, self.words, out);
    }
}
