// Set files: the text that states a parameter set, a line for each field, as `n = 10`.
#![tactic(auto)]

pub mod draft;
pub mod fault;
pub mod field;
pub mod file;
mod found;
pub mod proposed;
mod scan;
pub mod shown;
mod values;

// How many check lengths are kept: one more than a set may have, so that too many are seen to be too many.
pub const KEPT_LENGTHS: usize = 11;

// How many numbers a set has besides its check lengths.
pub const NUMBERS: usize = 7;
