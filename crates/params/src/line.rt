// What a set's numbers alone tell: its moduli, its bound, its line, and the lengths of its keys and parcels.
ghost use Rattle.std.specs.Prelude.{◌≡◌, ◌+◌, ◌*◌, ◌/◌, ◌^◌, ◌<◌, ◌≤◌, Decides};
ghost use Rattle.params.specs.Limits.{word_bits};
ghost use Rattle.params.specs.Sizes.{q, p, t, bound, line_left, line_right, BelowLine, bytes_for, key_length, parcel_length};

use crate::moduli::Moduli;
use crate::set::Set;

// Kept: q, p and t are the words of the field, and a line each; one function of an exponent would say no more in less.
impl Moduli {
    // The modulus before rounding.
    pub fn q(&self) -> u32
        ensures value { result ≡ q self.now }
        ensures word { result ≤ 2 ^ word_bits }
    {
        1u32 << self.qb
    }

    // The modulus after rounding.
    pub fn p(&self) -> u32
        ensures value { result ≡ p self.now }
        ensures word { result ≤ 2 ^ word_bits }
    {
        1u32 << self.pb
    }

    // The modulus of symbols.
    pub fn t(&self) -> u32
        ensures value { result ≡ t self.now }
        ensures word { result ≤ 2 ^ word_bits }
    {
        1u32 << self.tb
    }

    // Half of what a symbol stands for: q/(2·t).
    fn half_symbol(&self) -> u32
        ensures value { result ≡ q self.now / (2 * t self.now) }
        ensures word { result ≤ 2 ^ word_bits }
    {
        self.q() / (2 * self.t())
    }

    // What one step after rounding stands for: q/p.
    fn rounding_step(&self) -> u32
        ensures value { result ≡ q self.now / p self.now }
        ensures word { result ≤ 2 ^ word_bits }
    {
        self.q() / self.p()
    }
}

impl Set {
    // The bound: q/(2·t) + h·q/p.
    #[tactic(auto, using(crate::proofs::Lines::weight_times))]
    pub fn bound(&self) -> u32
        ensures { result ≡ bound self.now }
    {
        self.moduli.half_symbol() + self.h as u32 * self.moduli.rounding_step()
    }

    // The side of the line that grows with the noise: 2·p + 4·h·t.
    #[tactic(auto, using(crate::proofs::Lines::weight_times))]
    pub fn line_left(&self) -> u32
        ensures { result ≡ line_left self.now }
    {
        2 * self.moduli.p() + 4 * (self.h as u32 * self.moduli.t())
    }

    // The other side of the line: p·t.
    pub fn line_right(&self) -> u32
        ensures { result ≡ line_right self.now }
    {
        self.moduli.p() * self.moduli.t()
    }

    // Whether the set is below the line, which is exactly where its bound is below a quarter of q.
    #[tactic(auto, using(crate::proofs::Lines::quarter_from_line, crate::proofs::Lines::line_from_quarter))]
    pub fn below_line(&self) -> bool
        ensures line { Decides result (BelowLine self.now) }
        ensures quarter { Decides result (bound self.now < q self.now.moduli / 4) }
    {
        self.line_left() < self.line_right()
    }

    // The bytes of a key.
    pub fn key_len(&self) -> usize
        ensures { result ≡ key_length self.now }
    {
        33 + (self.n as usize * self.moduli.pb as usize).div_ceil(8)
    }

    // The bytes of a parcel.
    pub fn parcel_len(&self) -> usize
        ensures { result ≡ parcel_length self.now }
    {
        33 + (self.n as usize * self.moduli.pb as usize
            + self.code.mu as usize * self.moduli.tb as usize).div_ceil(8)
    }
}
