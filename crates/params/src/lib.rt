// Parameter sets: what may be proposed for one, the rules that every set keeps, and what a set promises by its numbers alone.
#![tactic(auto)]

mod blocks;
pub mod code;
pub mod line;
pub mod make;
pub mod moduli;
pub mod proposal;
pub mod rules;
pub mod set;
pub mod shape;

// The largest number of coefficients, n.
pub const MOST_N: u16 = 1200;

// The same as the length of an array: room for the coefficients, the positions or the symbols of any set.
// Kept: such rooms are arrays, of which a set takes the first part, since the kit has no heap.
pub const MOST: usize = MOST_N as usize;

// The largest payload, in bits.
pub const MOST_KAPPA: u16 = 256;

// The most symbols that a code mends.
pub const MOST_FLIPS: u16 = 5;

// The most checks that a code has: two for each symbol that it mends.
pub const MOST_CHECKS: usize = 10;

// The longest check, in bits.
pub const LONGEST_CHECK: u16 = 255;

// The bits of a word: no modulus is larger than 2 to this.
pub const WORD_BITS: u16 = 16;
