// The ring of the kit: groups, the three sorts of coefficient, the product by a secret, and its laws.
#![tactic(auto)]

mod groups;
mod laws;
mod residues;
mod sorts;
mod sparse;
mod terms;
mod whole;

pub use groups::Group;
pub use laws::ring_laws;
pub use residues::{Operand, Residue, Wrapping};
pub use sorts::{Coefficient, Rounded, Sort, Symbol};
pub use sparse::multiply;
pub use whole::{multiply_operands, multiply_residues, multiply_signed};
