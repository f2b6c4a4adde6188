// What both ends of the kit compute: seeds expanded, keys, parcels, raw bits and the hashes that bind them. Every function here is for the
// calls above, which have tested all lengths.
#![tactic(auto)]

mod decrypt;
mod expand;
mod hashes;
mod parcels;
mod products;
mod secret;

pub use expand::{expand_polynomial, expand_positions};
pub use hashes::{secret_from, station_seed};
pub use parcels::encrypt;
pub use secret::Secret;
