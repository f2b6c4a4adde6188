// The numbers of a code, of which no rule is promised.
use crate::MOST_CHECKS;

// κ payload bits, 2·f checks of the first lengths in the table, and whether check 0 goes by blocks.
// Kept: a proposal lists its numbers flat, as users state them, and has its lengths in any form; nesting this in it would double each path.
#[derive(Clone, Copy)]
pub struct Shape {
    pub kappa: u16,
    pub f: u16,
    pub block: bool,
    pub lengths: [u16; MOST_CHECKS],
}
