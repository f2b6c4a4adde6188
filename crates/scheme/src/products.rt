// The products of the scheme.
// Kept: the product area is a slice of n + 1 words, since a struct around it would promise at each call that its set is as before.
// Kept: a, b and u are slices of n, since a struct around each would hold a set, and each product would ask that it is the secret's.
ghost use Rattle.std.specs.Prelude.{◌≡◌, ◌+◌, ◌/◌, length};
ghost use Rattle.ring.specs.Lists.{words_q, words_p, words_t};
ghost use Rattle.code.specs.Words.{code_word};
ghost use Rattle.rounding.specs.Symbols.{rounded_product, cross_product, symbols, raw_bits};

use crate::secret::Secret;
use code::encode;
use params::MOST;
use ring::{Coefficient, Rounded, Symbol};
use rounding::Product;

impl Secret<'_> {
    /// The rounded reduced product of a and the secret. Publish, seal and open lend n + 1 words and n coefficients.
    pub fn round_times(&self, a: &[Coefficient], product: &mut [u16], out: &mut [Rounded])
        requires long { length a.now ≡ self.now.set.now.n }
        requires room { length product.old ≡ self.now.set.now.n + 1 }
        requires out { length out.old ≡ self.now.set.now.n }
        ensures { words_p out.new ≡ rounded_product self.now.set.now.moduli self.now.set.now.n (words_q a.now) self.now.positions.now }
    {
        Product::of(a, self.positions, product).round(self.set.moduli, out);
    }

    // The symbols that hide the code word of a message under the cyclic product of b and the secret.
    pub(crate) fn hide_message(
        &self,
        b: &[Rounded],
        message: &[u8],
        product: &mut [u16],
        out: &mut [Symbol],
    )
        requires long { length b.now ≡ self.now.set.now.n }
        requires message { length message.now ≡ self.now.set.now.code.shape.kappa / 8 }
        requires room { length product.old ≡ self.now.set.now.n + 1 }
        requires out { length out.old ≡ self.now.set.now.code.mu }
        ensures { words_t out.new ≡ symbols self.now.set.now.moduli (cross_product self.now.set.now.moduli self.now.set.now.n (words_p b.now) self.now.positions.now) (code_word self.now.set.now.code.shape message.now) }
    {
        let mut word = [0u8; MOST];
        let word = &mut word[0..self.set.code.mu as usize];
        encode(&self.set.code, message, word);
        Product::of(b, self.positions, product).symbols(self.set.moduli, word, out);
    }

    // The raw bits of symbols, read with the cyclic product of u and the secret.
    pub(crate) fn read_bits(&self, u: &[Rounded], v: &[Symbol], product: &mut [u16], out: &mut [u8])
        requires long { length u.now ≡ self.now.set.now.n }
        requires sent { length v.now ≡ self.now.set.now.code.mu }
        requires room { length product.old ≡ self.now.set.now.n + 1 }
        requires out { length out.old ≡ self.now.set.now.code.mu }
        ensures { out.new ≡ raw_bits self.now.set.now.moduli (words_t v.now) (cross_product self.now.set.now.moduli self.now.set.now.n (words_p u.now) self.now.positions.now) }
    {
        Product::of(u, self.positions, product).raw_bits(self.set.moduli, v, out);
    }
}
