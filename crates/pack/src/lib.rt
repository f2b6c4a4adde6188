// Fields to bits to bytes, and back: what keys and parcels are made of.
#![tactic(auto)]

mod bit_reader;
mod bit_writer;
mod field;
mod reader;
mod trips;
mod writer;

pub use field::Field;
pub use reader::{PackFault, check_fill, fields, unpack};
pub use trips::{pack_unpack, round_trips, unpack_pack};
pub use writer::pack;
