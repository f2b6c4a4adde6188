// A till's rack of four places, and its calls: issue, publish, open, retire.
#![tactic(auto)]

mod coins;
mod issue;
mod keys;
mod opening;
mod rack;
mod record;

pub use rack::Rack;
pub use record::{COIN_BYTES, Coins, PLACES, Record};
