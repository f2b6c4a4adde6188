// Why a call says no.
ghost use Rattle.std.specs.Prelude.{◌≡◌};
ghost use Rattle.calls.specs.declared.refusal.Refusal.TheVariants.{Form, Short};

use sampler::SamplerFault;
use wire::WireFault;

/// A buffer that is lent to a call: what it writes, the station's secret, and the two working areas. Each has its number.
#[derive(Clone, Copy, Debug, PartialEq, Eq)]
pub enum Buffer {
    Output = 1,
    SecretOutput,
    SecretArea,
    ProductArea,
}

/// An input of a call: a key, a parcel, or seeds of 96 bytes; and a message or a single seed. Each has its number.
#[derive(Clone, Copy, Debug, PartialEq, Eq)]
pub enum Input {
    First = 1,
    Second,
}

/// Why a call says no. The faults of the layers below stand whole in `Form` and `Short`.
#[derive(Clone, Copy, Debug, PartialEq, Eq)]
pub enum Refusal {
    // the place is above 3
    NoSuchPlace(u8),
    // publish, open or retire of an empty place
    EmptyPlace(u8),
    // issue to a place in use
    PlaceInUse(u8),
    // a buffer of a wrong length
    WrongBuffer(Buffer),
    // an input of a wrong length, with the length it had
    WrongInput(Input, usize),
    // a wrong kind byte, or a fill bit that is not zero
    Form(WireFault),
    // too few bytes left
    Short(SamplerFault),
}

// Kept: the fault of each layer below stays whole and is turned by a From of its own.
impl From<SamplerFault> for Refusal {
    ghost from_gives = { λ fault refusal. refusal ≡ Short fault };

    fn from(fault: SamplerFault) -> Refusal {
        Refusal::Short(fault)
    }
}

impl From<WireFault> for Refusal {
    ghost from_gives = { λ fault refusal. refusal ≡ Form fault };

    fn from(fault: WireFault) -> Refusal {
        Refusal::Form(fault)
    }
}
