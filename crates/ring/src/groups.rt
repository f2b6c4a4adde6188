// Commutative groups: the one that residues form whose sums wrap, of whatever sort, and that of signed words, when their sums wrap.
ghost use Rattle.std.specs.Prelude.{◌≡◌, ◌^◌, ◌<◌, pos, ◌+ℤ◌, ◌-ℤ◌, if◌then◌else◌, FitsSigned};
ghost use Rattle.std.proofs.Common.{sym, ap, ◌∙◌, rules};
ghost use Rattle.ring.specs.GroupLaws.{GroupLaws};
ghost use Rattle.ring.specs.Words.{add16, sub16, add32, sub32};
ghost use Rattle.std.proofs.lemmas.Int.{SFits-int_wrap, int_wrap-add_left, int_wrap-add_right, int_wrap_fits};
ghost use Rattle.std.specs.Int.{int_wrap, w32};
ghost use Rattle.std.proofs.Math.IntN.{+ℤ_assoc, +ℤ_idr, -ℤ-+ℤ_cancel};

use crate::residues::Wrapping;

// A commutative group. Its laws hold of the values that fit their word, as every value of the code does.
pub trait Group: Copy {
    ghost none: { Self };

    ghost plus: { Self → Self → Self };

    ghost minus: { Self → Self → Self };

    ghost fits: { Self → Type 0 };

    fn zero() -> Self
        ensures { result ≡ none };

    fn add(self, other: Self) -> Self
        ensures { result ≡ plus self other };

    fn sub(self, other: Self) -> Self
        ensures { result ≡ minus self other };

    // The other is subtracted or added.
    // Kept: a bool for the sign; with a closure in its place each clause of the product would have to say which of the two operations it is.
    fn step(self, other: Self, subtract: bool) -> Self
        ensures { result ≡ (if subtract then minus else plus) self other }
    {
        if subtract {
            self.sub(other)
        } else {
            self.add(other)
        }
    }

    ghost laws: { GroupLaws none plus minus fits };
}

impl<R: Wrapping> Group for R {
    ghost none = { R.made 0 };

    ghost plus = { λ x y. R.made (add16 (R.bare x) (R.bare y)) };

    ghost minus = { λ x y. R.made (sub16 (R.bare x) (R.bare y)) };

    ghost fits = { λ x. R.bare x < 2 ^ 16 };

    ghost laws = { record {
      origin = Prim.search rules;
      sum = Prim.search rules;
      difference = Prim.search rules;
      commutes = Prim.search rules;
      associates = Prim.search rules;
      neutral = Prim.search rules;
      inverse = Prim.search rules;
    } };

    fn zero() -> R {
        R::of(0)
    }

    fn add(self, other: R) -> R {
        R::of(self.number().wrapping_add(other.number()))
    }

    fn sub(self, other: R) -> R {
        R::of(self.number().wrapping_sub(other.number()))
    }
}

#[tactic(auto, using(std::proofs::lemmas::Int::wraps))]
impl Group for i32 {
    ghost none = { pos 0 };

    ghost plus = { add32 };

    ghost minus = { sub32 };

    ghost fits = { λ x. FitsSigned w32 x };

    ghost laws = { record {
      origin = Prim.search rules;
      sum = λ x y. SFits-int_wrap w32 (x +ℤ y);
      difference = λ x y. SFits-int_wrap w32 (x -ℤ y);
      commutes = Prim.search rules;
      associates = λ x y z. int_wrap-add_left w32 (x +ℤ y) z ∙ ap (int_wrap w32) (+ℤ_assoc x y z) ∙ sym (int_wrap-add_right w32 x (y +ℤ z));
      neutral = λ x h. ap (int_wrap w32) (+ℤ_idr x) ∙ int_wrap_fits w32 x h;
      inverse = λ x y h k. int_wrap-add_left w32 (x -ℤ y) y ∙ ap (int_wrap w32) (-ℤ-+ℤ_cancel x y) ∙ int_wrap_fits w32 x h;
    } };

    fn zero() -> i32 {
        0
    }

    fn add(self, other: i32) -> i32 {
        self.wrapping_add(other)
    }

    fn sub(self, other: i32) -> i32 {
        self.wrapping_sub(other)
    }
}
