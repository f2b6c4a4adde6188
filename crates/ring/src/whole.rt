// The product of residues and of signed numbers, in whole numbers. Every call lends an area of n + 1 words and a secret's positions, which are below n.
ghost use Rattle.std.specs.Prelude.{◌≡◌, ℕ, ◌+◌, ◌^◌, ◌≤◌, length, map, unsigned_abs};
ghost use Rattle.ring.specs.Lists.{signed};
ghost use Rattle.ring.specs.Cyclic.{Within, cyclic_words, cyclic_signed};

use crate::residues::{Operand, Residue};
use crate::sorts::Coefficient;
use crate::sparse::{multiply, multiply_terms};

// Coefficients before rounding or after: words that hold the product modulo 2^16.
pub fn multiply_operands<R: Operand>(poly: &[R], secret: &[u16], out: &mut [u16])
    requires long { length out.old ≡ length poly.now + 1 }
    requires within { Within (length poly.now) secret.now }
    ensures { out.new ≡ cyclic_words (length poly.now) (map R.bare poly.now) secret.now }
{
    multiply::<R>(poly, secret, out);
}

// Residues of any sort, symbols, plain words and a caller's own among them: the same. No call of the kit needs it.
pub fn multiply_residues<R: Residue>(poly: &[R], secret: &[u16], out: &mut [u16])
    requires long { length out.old ≡ length poly.now + 1 }
    requires within { Within (length poly.now) secret.now }
    ensures { out.new ≡ cyclic_words (length poly.now) (map R.bare poly.now) secret.now }
{
    // A row must fit in memory. A slice that holds a residue shows that one does; an empty slice doesn't, and has no rows.
    if poly.is_empty() {
        multiply_operands::<Coefficient>(&[], secret, out);
    } else {
        let (rows, _) = poly.as_chunks::<1>();
        multiply_terms(rows, secret, out);
    }
}

// Signed numbers: the product itself. Rounding errors are below 2^14 in size, and a secret has at most 1,200 positions, so that none wraps.
pub fn multiply_signed(poly: &[i32], secret: &[u16], out: &mut [i32])
    requires long { length out.old ≡ length poly.now + 1 }
    requires within { Within (length poly.now) secret.now }
    requires near { (k : ℕ) → unsigned_abs (signed poly.now k) ≤ 2 ^ 14 }
    requires few { length secret.now ≤ 2 ^ 14 }
    ensures value { out.new ≡ cyclic_signed (length poly.now) poly.now secret.now }
    ensures near { (k : ℕ) → unsigned_abs (signed out.new k) ≤ 2 ^ 28 }
{
    multiply(poly, secret, out);
}
