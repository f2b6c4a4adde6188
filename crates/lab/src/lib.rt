// The laboratory's calls: the raw bits that a till's secret reads from a parcel, and the noise between two secrets; and the message
// that raw bits correct to.
#![tactic(auto)]

mod gauging;
mod mend;
mod read;

pub use gauging::gauge;
pub use mend::{RawFault, correct_raw};
pub use read::raw_read;
