// The kit for C: each call over numbers, slices and plain structs. Every function takes any lengths, and none has a precondition.
// Kept: in the C interface numbers and lengths, a tape and its flag, and the two areas are parameters of their own.
#![tactic(auto)]

mod hash;
mod laboratory;
mod layout;
mod made;
mod origin;
mod places;
mod station;
mod till;
mod told;
