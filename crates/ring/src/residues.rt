// Residues: what is a word of 16 bits, by itself or as a sort of its own; those whose sums wrap, and those that `multiply` takes.
ghost use Rattle.std.specs.Prelude.{◌≡◌, ℕ};
ghost use Rattle.std.proofs.Common.{rules};

// A word of 16 bits, or a type of its own around one. `bare` is the word, and `made` the value that has it.
pub trait Residue: Copy {
    ghost bare: { Self → ℕ };

    ghost made: { ℕ → Self };

    fn number(self) -> u16
        ensures { result ≡ bare self };

    fn of(x: u16) -> Self
        ensures { result ≡ made x };

    ghost back: { (x : ℕ) → bare (made x) ≡ x };

    ghost forth: { (x : Self) → made (bare x) ≡ x };
}

// A residue whose sums wrap as a word's do. A sort with sums of its own is no such residue, and says itself which group it forms.
pub trait Wrapping: Residue {}

// A residue that `multiply` and the kit's products take. Symbols are none, nor are plain words: no sort is taken for another.
pub trait Operand: Residue {}

impl Wrapping for u16 {}

impl Residue for u16 {
    ghost bare = { λ x. x };

    ghost made = { λ x. x };

    ghost back = { Prim.search rules };

    ghost forth = { Prim.search rules };

    fn number(self) -> u16 {
        self
    }

    fn of(x: u16) -> u16 {
        x
    }
}
