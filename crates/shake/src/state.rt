// The two states of a SHAKE256 sponge.
ghost use Rattle.std.specs.Prelude.{◌<◌, ◌≤◌};
ghost use Rattle.shake.specs.Shake.{rate};

// How many bytes Keccak's state has.
pub(crate) const STATE_BYTES: usize = 200;

// How many of them take and give bytes: a block.
pub(crate) const RATE: usize = 136;

/// A sponge that takes bytes of the message. The position is that of the next byte in its block.
#[derive(Drop)]
pub struct Absorbing {
    pub(crate) state: [u8; STATE_BYTES],
    pub(crate) position: usize,
    ghost ok: { position < rate },
}

/// A sponge that gives bytes, and takes no more. A block that is given whole is permuted only when another byte is asked for.
#[derive(Drop)]
pub struct Squeezing {
    pub(crate) state: [u8; STATE_BYTES],
    pub(crate) position: usize,
    ghost ok: { position ≤ rate },
}
