// The product of a polynomial and a sparse ternary secret, once for every sort of coefficient.
ghost use Rattle.std.specs.Prelude.{◌≡◌, ℕ, ◌+◌, ◌<◌, ◌≤◌, map, length, slice_index_or, if◌then◌else◌};
ghost use Rattle.std.specs.List.{AllByRecursion};
ghost use Rattle.ring.specs.Lists.{listed};
ghost use Rattle.ring.specs.Cyclic.{along, back, cyclic_in, Within};

use crate::groups::Group;
use crate::sorts::Sort;
use crate::terms::Term;

// One run: each element of `src` is added to the element of `dst` at its place, or subtracted from it.
fn run<T: Term>(dst: &mut [T::Word], src: &[T], subtract: bool)
    requires { length src.now ≤ length dst.old }
    ensures { dst.new ≡ along (if subtract then T.Word.minus else T.Word.plus) dst.old (map T.bare src.now) }
{
    for (i, x) in src.iter().enumerate() {
        dst[i] = dst[i].step(x.summand(), subtract);
    }
}

// `poly` times the p-th power of the unknown is added to `out`, or subtracted from it: two runs, each over contiguous words.
fn shifted<T: Term>(out: &mut [T::Word], poly: &[T], p: usize, subtract: bool)
    requires long { length out.old ≡ length poly.now + 1 }
    requires within { p < length poly.now }
    requires fit { AllByRecursion T.Word.fits out.old }
    ensures each { (k : ℕ) → k < length poly.now + 1 → slice_index_or out.new k T.Word.none ≡ (if subtract then T.Word.minus else T.Word.plus) (slice_index_or out.old k T.Word.none) (slice_index_or (map T.bare poly.now) (back (length poly.now + 1) k p) T.Word.none) }
    ensures fit { AllByRecursion T.Word.fits out.new }
{
    let (low, high) = out.split_at_mut(p);
    let (first, rest) = poly.split_at(poly.len().min(high.len()));
    run(high, first, subtract);
    run(low, rest, subtract);
}

fn clear<T: Group>(out: &mut [T])
    ensures { (k : ℕ) → k < length out.new → slice_index_or out.new k T.none ≡ T.none }
{
    for x in out.iter_mut() {
        *x = T::zero();
    }
}

// The cyclic product of `poly`, of n terms, and the secret with these positions: n + 1 words. `multiply` is this product of a sort.
pub(crate) fn multiply_terms<T: Term>(poly: &[T], secret: &[u16], out: &mut [T::Word])
    requires long { length out.old ≡ length poly.now + 1 }
    requires within { Within (length poly.now) secret.now }
    ensures { out.new ≡ listed (length poly.now + 1) (cyclic_in T.Word.none T.Word.minus (length poly.now + 1) (λ j. slice_index_or (map T.bare poly.now) j T.Word.none) secret.now) }
{
    clear(out);
    for (j, p) in secret.iter().enumerate() {
        shifted(out, poly, *p as usize, j % 2 != 0);
    }
}

// The cyclic product of `poly`, of n coefficients, and the secret with these positions: n + 1 coefficients.
// Every call lends an area of n + 1 words, and a secret's positions are below n.
pub fn multiply<S: Sort>(poly: &[S], secret: &[u16], out: &mut [S::Word])
    requires long { length out.old ≡ length poly.now + 1 }
    requires within { Within (length poly.now) secret.now }
    ensures { out.new ≡ listed (length poly.now + 1) (cyclic_in S.Word.none S.Word.minus (length poly.now + 1) (λ j. slice_index_or (map S.bare poly.now) j S.Word.none) secret.now) }
{
    multiply_terms(poly, secret, out);
}
