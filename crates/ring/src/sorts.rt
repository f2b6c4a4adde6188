// The three sorts of coefficient, each a type of its own, and what the product adds up for each.
ghost use Rattle.std.specs.Prelude.{◌≡◌, ◌%◌, ◌^◌};
ghost use Rattle.std.specs.Int.{int_wrap, w32};
ghost use Rattle.std.proofs.Common.{rules};
ghost use Rattle.std.proofs.lemmas.Int.{SFits-int_wrap};

use crate::groups::Group;
use crate::residues::{Operand, Residue, Wrapping};

// A coefficient before rounding: a word that stands for a residue modulo q.
#[derive(Clone, Copy, PartialEq, Eq, Debug)]
pub struct Coefficient(pub u16);

// A coefficient after rounding: a word that stands for a residue modulo p.
#[derive(Clone, Copy, PartialEq, Eq, Debug)]
pub struct Rounded(pub u16);

// A symbol of a parcel: a word that stands for a residue modulo t.
#[derive(Clone, Copy, PartialEq, Eq, Debug)]
pub struct Symbol(pub u16);

// Kept: the sorts are three structs, so each says for itself how it is a word; an impl may not be written by a macro.
impl Residue for Coefficient {
    ghost bare = { λ x. x.0 };

    ghost made = { λ x. record { 0 = x } };

    ghost back = { Prim.search rules };

    ghost forth = { Prim.search rules };

    fn number(self) -> u16 {
        self.0
    }

    fn of(x: u16) -> Coefficient {
        Coefficient(x)
    }
}

impl Residue for Rounded {
    ghost bare = { λ x. x.0 };

    ghost made = { λ x. record { 0 = x } };

    ghost back = { Prim.search rules };

    ghost forth = { Prim.search rules };

    fn number(self) -> u16 {
        self.0
    }

    fn of(x: u16) -> Rounded {
        Rounded(x)
    }
}

impl Residue for Symbol {
    ghost bare = { λ x. x.0 };

    ghost made = { λ x. record { 0 = x } };

    ghost back = { Prim.search rules };

    ghost forth = { Prim.search rules };

    fn number(self) -> u16 {
        self.0
    }

    fn of(x: u16) -> Symbol {
        Symbol(x)
    }
}

impl Wrapping for Coefficient {}

impl Wrapping for Rounded {}

impl Wrapping for Symbol {}

impl Operand for Coefficient {}

impl Operand for Rounded {}

// What a polynomial may be made of, and the word in which the product adds it up.
pub trait Sort: Copy {
    type Word: Group;

    ghost bare: { Self → Self.Word };

    fn word(self) -> Self::Word
        ensures { result ≡ bare self };

    ghost whole: { (x : Self) → Self.Word.fits (bare x) };
}

impl<R: Operand> Sort for R {
    type Word = u16;

    ghost bare = { λ x. R.bare x % 2 ^ 16 };

    ghost whole = { Prim.search rules };

    fn word(self) -> u16 {
        self.number()
    }
}

impl Sort for i32 {
    type Word = i32;

    ghost bare = { λ x. int_wrap w32 x };

    ghost whole = { λ x. SFits-int_wrap w32 x };

    fn word(self) -> i32 {
        self
    }
}
