// Keys and parcels as bytes.
#![tactic(auto)]

mod fault;
mod key;
mod parcel;
mod trips;

pub use fault::WireFault;
pub use key::{Key, check_key, check_key_content, write_key};
pub use parcel::{Parcel, check_parcel, check_parcel_content, write_parcel};
pub use trips::wire_trips;
