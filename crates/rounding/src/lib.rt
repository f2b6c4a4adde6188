// Rounding, symbols, raw bits, slips and noise, over lent slices of words.
#![tactic(auto)]

mod elements;
mod laws;
mod lists;
mod product;

pub use laws::rounding_laws;
pub use lists::{noise, out_of_band, raw_bits, round_product, slips, symbols};
pub use product::Product;
