// Rack files: the numbers of a parameter set and the places of a till's rack, as bytes.
#![tactic(auto)]

mod bytes;
mod fault;
mod image;
mod numbers;
mod places;
mod reading;
mod shown;
mod writing;

pub use fault::RackFault;
pub use image::{Image, Numbers};
pub use numbers::{numbers_of, proposal_of};
pub use reading::decode;
pub use writing::encode;

/// The bytes of a rack file.
pub const RACK_FILE_BYTES: usize = 463;

// Where the letters end, and the numbers begin.
const LETTERS_END: usize = 8;

// Where the numbers end, and the places begin.
const NUMBERS_END: usize = 43;

// Where the places end, and the checksum begins.
const PLACES_END: usize = 431;
