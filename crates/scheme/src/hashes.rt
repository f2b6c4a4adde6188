// The two hashes of the scheme, each SHAKE256 of a label byte and what follows it.
ghost use Rattle.std.specs.Prelude.{◌≡◌, ◌∷◌, ◌++◌, length};
ghost use Rattle.shake.specs.Shake.{shake256};
ghost use Rattle.scheme.specs.Scheme.{sealing_bytes, secret_from, l_of, tag_of, station_seed};

use calls::thirds;
use shake::hash;

// Kept: two labels, each the first byte of one hash; an enum would be cast to that byte at both places.
// The label of the hash of a message and a key.
const SEALING_LABEL: u8 = 0x10;

// The label of the hash that gives a secret.
const SECRET_LABEL: u8 = 0x11;

// What a message and a key give: l, from which the secret comes, the tag g, and the seed of the station's secret.
#[derive(Clone, Copy)]
pub(crate) struct Sealing {
    pub l: [u8; 32],
    pub tag: [u8; 32],
    pub seed: [u8; 32],
}

// SHAKE256 of a label and two pieces.
fn hash_pair<'x>(label: u8, first: &'x [u8], second: &'x [u8], out: &mut [u8])
    ensures { out.new ≡ shake256 (label ∷ (first.now ++ second.now)) (length out.old) }
{
    hash(label, &[first, second], out);
}

#[tactic(auto, unfolding(crate::specs::Scheme::sealing_bytes))]
fn hash_sealing(message: &[u8], key: &[u8]) -> [u8; 96]
    ensures { result ≡ sealing_bytes message.now key.now }
{
    let mut bytes = [0u8; 96];
    hash_pair(SEALING_LABEL, message, key, &mut bytes);
    bytes
}

pub(crate) fn sealing_of(message: &[u8], key: &[u8]) -> Sealing
    ensures l { result.l ≡ l_of message.now key.now }
    ensures tag { result.tag ≡ tag_of message.now key.now }
    ensures seed { result.seed ≡ station_seed message.now key.now }
{
    let [l, tag, seed] = thirds(&hash_sealing(message, key));
    Sealing { l, tag, seed }
}

/// The seed of the station's secret when it seals a message to a key. A laboratory gauges a sealing with it.
pub fn station_seed(message: &[u8], key: &[u8]) -> [u8; 32]
    ensures { result ≡ station_seed message.now key.now }
{
    sealing_of(message, key).seed
}

/// The secret that 32 bytes and a parcel give. Seal and open have tested that its buffer holds 32 bytes.
#[tactic(auto, unfolding(crate::specs::Scheme::secret_from))]
pub fn secret_from(l: &[u8; 32], parcel: &[u8], out: &mut [u8])
    requires { length out.old ≡ 32 }
    ensures { out.new ≡ secret_from l.now parcel.now }
{
    hash_pair(SECRET_LABEL, l, parcel, out);
}
