// What every call of the kit shares: its refusals and their numbers, the tests of lengths, the parts of an input, and the guard that leaves
// a working area all zeros.
#![tactic(auto)]

mod areas;
mod checks;
mod numbers;
mod parts;
mod refusal;

pub use areas::{AREA_WORDS, Wiped};
pub use checks::{expect, expect_areas};
pub use numbers::RefusalNumbers;
pub use parts::thirds;
pub use refusal::{Buffer, Input, Refusal};
