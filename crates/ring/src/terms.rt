// What the product adds up: elements of a sort, or residues of whichever sort as rows of one. It stays within this crate, so that no caller can hand
// `multiply` rows of symbols or of plain words.
ghost use Rattle.std.specs.Prelude.{◌≡◌, ◌%◌, ◌^◌, slice_index_or};
ghost use Rattle.std.proofs.Common.{rules};

use crate::groups::Group;
use crate::residues::Residue;
use crate::sorts::Sort;

// An element that the product reads, and the word in which it adds it up.
pub(crate) trait Term: Copy {
    type Word: Group;

    ghost bare: { Self → Self.Word };

    fn summand(self) -> Self::Word
        ensures { result ≡ bare self };

    ghost whole: { (x : Self) → Self.Word.fits (bare x) };
}

impl<S: Sort> Term for S {
    type Word = S::Word;

    ghost bare = { S.bare };

    ghost whole = { S.whole };

    fn summand(self) -> S::Word {
        self.word()
    }
}

// A row of one residue: as such, a slice of residues is a slice of terms, with no element copied.
impl<R: Residue> Term for [R; 1] {
    type Word = u16;

    ghost bare = { λ row. R.bare (slice_index_or row 0 (R.made 0)) % 2 ^ 16 };

    ghost whole = { Prim.search rules };

    fn summand(self) -> u16 {
        let [x] = self;
        x.number()
    }
}
