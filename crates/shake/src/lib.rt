// SHAKE256 of FIPS 202: bytes go in, the message ends, bytes come out.
#![tactic(auto)]

pub mod known;
mod state;

ghost use Rattle.std.specs.Prelude.{◌≡◌, ℕ, ◌+◌, ◌<◌, ◌≤◌, List, [], ◌∷◌, ◌++◌, length, drop};
ghost use Rattle.std.specs.List.{flat_map};
ghost use Rattle.shake.specs.Shake.{rate, lane_at, lanes_of, bytes_of, permuted, xored, shake256};
ghost use Rattle.shake.specs.Meaning.{filled, after, coming};

use keccak::permute;
pub use state::{Absorbing, Squeezing};
use state::{RATE, STATE_BYTES};

// Lane k of the state.
fn lane(bytes: &[u8; STATE_BYTES], k: usize) -> u64
    requires { k < 25 }
    ensures { result ≡ lane_at bytes.now k }
{
    let mut eight = [0; 8];
    eight.copy_from_slice(&bytes[8 * k..8 * k + 8]);
    u64::from_le_bytes(eight)
}

// The lanes that the bytes make.
fn lanes(bytes: &[u8; STATE_BYTES]) -> [u64; 25]
    ensures { result ≡ lanes_of bytes.now }
{
    let mut lanes = [0; 25];
    for (k, place) in lanes.iter_mut().enumerate() {
        *place = lane(bytes, k);
    }
    lanes
}

// The bytes that the lanes make.
#[tactic(auto, unfolding(crate::specs::Shake::bytes_of))]
fn bytes(lanes: &[u64; 25]) -> [u8; STATE_BYTES]
    ensures { result ≡ bytes_of lanes.now }
{
    let mut bytes = [0; STATE_BYTES];
    for (k, lane) in lanes.iter().enumerate() {
        bytes[8 * k..8 * k + 8].copy_from_slice(&lane.to_le_bytes());
    }
    bytes
}

// Keccak's permutation, on bytes.
#[tactic(auto, unfolding(crate::specs::Shake::permuted))]
fn permute_bytes(state: &mut [u8; STATE_BYTES])
    ensures { state.new ≡ permuted state.old }
{
    let mut mixed = lanes(state);
    permute(&mut mixed);
    *state = bytes(&mixed);
}

// Xors bytes into as many others.
#[tactic(auto, using(crate::proofs::Xor::xored_more, crate::proofs::Xor::xored_nil))]
fn xor_into(front: &mut [u8], bytes: &[u8])
    requires { length front.old ≡ length bytes.now }
    ensures { front.new ≡ xored front.old bytes.now }
{
    for (i, byte) in front.iter_mut().enumerate() {
        *byte ^= bytes[i];
    }
}

impl Absorbing {
    /// A sponge for a new message.
    #[tactic(auto, unfolding(crate::specs::Meaning::after, crate::specs::Shake::shake256))]
    pub fn new() -> Absorbing
        ensures { (m : List ℕ) (k : ℕ) → after result m k ≡ shake256 m k }
    {
        Absorbing {
            state: [0; STATE_BYTES],
            position: 0,
        }
    }

    // Absorbs a run of bytes that lies in this block.
    #[tactic(auto, using(crate::proofs::Blocks::run_more, crate::proofs::Blocks::run_end))]
    fn absorb_run(&mut self, run: &[u8])
        requires { self.old.position + length run.now ≤ rate }
        ensures { (m : List ℕ) → filled self.new m ≡ filled self.old (run.now ++ m) }
    {
        let start = self.position;
        let end = start + run.len();
        xor_into(&mut self.state[start..end], run);
        if end == RATE {
            permute_bytes(&mut self.state);
            self.position = 0;
        } else {
            self.position = end;
        }
    }

    /// Takes the next bytes of the message: what is taken later comes after them, however the message is cut into pieces.
    #[tactic(auto, unfolding(crate::specs::Meaning::after))]
    pub fn absorb(&mut self, bytes: &[u8])
        ensures { (m : List ℕ) (k : ℕ) → after self.new m k ≡ after self.old (bytes.now ++ m) k }
    {
        let mut rest = bytes;
        while !rest.is_empty() {
            let room = RATE - self.position;
            let (run, later) = rest.split_at(room.min(rest.len()));
            self.absorb_run(run);
            rest = later;
        }
    }

    /// Ends the message: from here on bytes only come out.
    #[tactic(auto, unfolding(crate::specs::Meaning::after, crate::specs::Meaning::coming), using(crate::proofs::Blocks::last_block))]
    pub fn finish(self) -> Squeezing
        ensures { (k : ℕ) → coming result k ≡ after self [] k }
    {
        let Absorbing {
            mut state,
            position,
        } = self;
        state[position] ^= 0x1f;
        state[RATE - 1] ^= 0x80;
        permute_bytes(&mut state);
        Squeezing { state, position: 0 }
    }
}

impl Squeezing {
    // Where a block is given whole, goes on to the next.
    #[tactic(auto, unfolding(crate::specs::Meaning::coming), using(crate::proofs::Output::next_block))]
    fn ready(&mut self)
        ensures same { (k : ℕ) → coming self.new k ≡ coming self.old k }
        ensures room { self.new.position < rate }
    {
        if self.position == RATE {
            permute_bytes(&mut self.state);
            self.position = 0;
        }
    }

    /// Fills the buffer with the next bytes to come, however the output is cut into pieces.
    pub fn squeeze(&mut self, out: &mut [u8])
        ensures bytes { out.new ≡ coming self.old (length out.old) }
        ensures rest { (k : ℕ) → coming self.new k ≡ drop (length out.old) (coming self.old (length out.old + k)) }
    {
        let n = out.len();
        let mut done = 0;
        // Kept: of a lent buffer that a loop splits, and whose rest it hands to its next turn, no proof knows what it ends as.
        while done < n {
            self.ready();
            let start = self.position;
            let k = (RATE - start).min(n - done);
            out[done..done + k].copy_from_slice(&self.state[start..start + k]);
            self.position = start + k;
            done += k;
        }
    }
}

/// The first bytes of SHAKE256 of the label and then the pieces, one after the other: as many as the buffer holds.
/// The pieces have one lifetime: a caller whose pieces have several goes by a function that names one, as `fn two<'x>(a: &'x [u8], b: &'x [u8])`.
#[tactic(auto, using(std::proofs::lemmas::List::at_drop_more, std::proofs::lemmas::List::at_drop_all))]
pub fn hash(label: u8, pieces: &[&[u8]], out: &mut [u8])
    ensures { out.new ≡ shake256 (label ∷ flat_map (λ p. p.now) pieces.now) (length out.old) }
{
    let mut message = Absorbing::new();
    message.absorb(&[label]);
    for piece in pieces {
        message.absorb(*piece);
    }
    let mut stream = message.finish();
    stream.squeeze(out);
}
