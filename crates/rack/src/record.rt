// What a place of a rack holds.
ghost use Rattle.std.specs.Prelude.{◌≡◌};
ghost use Rattle.rack.specs.Calls.{coins_from, coin_bytes};

use calls::thirds;

/// The places of a rack.
pub const PLACES: usize = 4;

/// The bytes of coins: σ, the seed and z, one after the other.
pub const COIN_BYTES: usize = 96;

/// Coins: σ, the seed of the till's secret, and z, which stands in for l where a parcel does not match.
#[derive(Clone, Copy)]
pub struct Coins {
    pub sigma: [u8; 32],
    pub seed: [u8; 32],
    pub z: [u8; 32],
}

/// A place's record: its coins, if it is in use.
pub type Record = Option<Coins>;

impl From<&[u8; COIN_BYTES]> for Coins {
    ghost from_gives = { λ bytes coins. coins ≡ coins_from bytes.now };

    fn from(bytes: &[u8; COIN_BYTES]) -> Coins {
        let [sigma, seed, z] = thirds(bytes);
        Coins { sigma, seed, z }
    }
}

impl Coins {
    /// The bytes of coins, which give them again.
    pub fn bytes(&self) -> [u8; COIN_BYTES]
        ensures { result ≡ coin_bytes self.now }
    {
        let mut bytes = [0u8; COIN_BYTES];
        bytes.copy_from_slice([self.sigma, self.seed, self.z].as_flattened());
        bytes
    }
}
