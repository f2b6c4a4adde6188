// The sorts that are packed: residues that form a group, whichever, and have a field width.
ghost use Rattle.std.specs.Prelude.{◌≡◌, ℕ, ◌≤◌};
ghost use Rattle.params.specs.declared.moduli.Moduli.{Moduli};
ghost use Rattle.std.proofs.Common.{rules};

use params::moduli::Moduli;
use ring::{Group, Residue, Rounded, Symbol};

// A sort with a field width, by which it is packed. Coefficients before rounding have none.
pub trait Field: Group + Residue {
    ghost width: { Moduli → ℕ };

    fn field_width(moduli: Moduli) -> u32
        ensures { result ≡ width moduli };

    ghost narrow: { (m : Moduli) → width m ≤ 15 };
}

// Kept: the two sorts differ in the width that they name, which is all that their impls say.
impl Field for Rounded {
    ghost width = { λ m. m.pb };

    ghost narrow = { Prim.search rules };

    fn field_width(moduli: Moduli) -> u32 {
        moduli.pb
    }
}

impl Field for Symbol {
    ghost width = { λ m. m.tb };

    ghost narrow = { Prim.search rules };

    fn field_width(moduli: Moduli) -> u32 {
        moduli.tb
    }
}
