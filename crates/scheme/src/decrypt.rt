// Reading a parcel with a secret of the same set.
ghost use Rattle.std.specs.Prelude.{◌≡◌, ◌+◌, ◌/◌, length};
ghost use Rattle.scheme.specs.Scheme.{bits_in, message_in};

use crate::secret::Secret;
use code::correct;
use params::MOST;
use ring::{Rounded, Symbol};
use wire::Parcel;

impl Secret<'_> {
    /// The raw bits of a parcel. Raw read and open lend n + 1 words and μ bytes.
    pub fn read_parcel_bits(&self, parcel: &Parcel<'_>, product: &mut [u16], out: &mut [u8])
        requires same { parcel.now.set.now ≡ self.now.set.now }
        requires room { length product.old ≡ self.now.set.now.n + 1 }
        requires out { length out.old ≡ self.now.set.now.code.mu }
        ensures { out.new ≡ bits_in self.now.set.now self.now.positions.now parcel.now.bytes.now }
    {
        let mut u = [Rounded(0); MOST];
        let mut v = [Symbol(0); MOST];
        let mut tag = [0u8; 32];
        let u = &mut u[0..self.set.n as usize];
        let v = &mut v[0..self.set.code.mu as usize];
        parcel.read(u, v, &mut tag);
        self.read_bits(u, v, product, out);
    }

    /// The message that is found in a parcel. Open lends n + 1 words and κ/8 bytes.
    #[tactic(auto, using(rounding::proofs::Below::raw_bits_le))]
    pub fn find_message(&self, parcel: &Parcel<'_>, product: &mut [u16], message: &mut [u8])
        requires same { parcel.now.set.now ≡ self.now.set.now }
        requires room { length product.old ≡ self.now.set.now.n + 1 }
        requires message { length message.old ≡ self.now.set.now.code.shape.kappa / 8 }
        ensures { message.new ≡ message_in self.now.set.now self.now.positions.now parcel.now.bytes.now }
    {
        let mut raw = [0u8; MOST];
        let raw = &mut raw[0..self.set.code.mu as usize];
        self.read_parcel_bits(parcel, product, raw);
        correct(&self.set.code, raw, message);
    }
}
