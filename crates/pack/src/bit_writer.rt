// Writing bits: fields go through an accumulator of 64 bits, from which 32 bits at a time go out as bytes.
ghost use Rattle.std.specs.Prelude.{◌≡◌, ◌+◌, ◌*◌, ◌<◌, ◌≤◌, [], map, length};
ghost use Rattle.params.specs.Sizes.{bytes_for};
ghost use Rattle.pack.specs.Bits.{bits, run, filled};

use crate::field::Field;
use params::moduli::Moduli;

// What is written: the first `at` bytes of `out`, and then the bits held, which are the `held` low ones of `acc`.
// `pack` makes the only ones, over as many bytes as the run takes, so that there is room for each field.
#[derive(Drop)]
pub struct BitWriter<'a> {
    out: &'a mut [u8],
    at: usize,
    acc: u64,
    held: u32,
    ghost within: { at ≤ length out.now },
    ghost few: { held < 32 },
}

impl<'a> BitWriter<'a> {
    ghost use Rattle.pack.specs.Places.{written, Wrote};

    // Nothing is written.
    #[tactic(auto, unfolding(crate::specs::Bits::bits, crate::specs::Bits::run))]
    pub fn new(out: &'a mut [u8]) -> BitWriter<'a>
        ensures written { written result ≡ [] }
        ensures area { result.out.ghost_name ≡ out.entry.ghost_name }
        ensures long { length result.out.now ≡ length out.old }
    {
        BitWriter {
            out,
            at: 0,
            acc: 0,
            held: 0,
        }
    }

    // Writes the low bits of a field.
    fn put<F: Field>(&mut self, moduli: Moduli, x: F)
        requires { length (written self.old) + F.width moduli ≤ length self.old.out.now * 8 }
        ensures wrote { Wrote self.old self.new (bits (F.width moduli) (F.bare x)) }
        ensures area { self.new.out.ghost_name ≡ self.old.out.ghost_name }
    {
        let w = F::field_width(moduli);
        let low = x.number() as u64 & ((1u64 << w) - 1);
        self.acc = (self.acc << w) | low;
        self.held += w;
        if self.held >= 32 {
            self.held -= 32;
            let word = (self.acc >> self.held) % 0x1_0000_0000;
            let at = self.at;
            self.out[at..at + 4].copy_from_slice(&(word as u32).to_be_bytes());
            self.at = at + 4;
        }
    }

    // Writes the low bits of each field.
    pub fn put_all<F: Field>(&mut self, moduli: Moduli, xs: &[F])
        requires { length (written self.old) + length xs.now * F.width moduli ≤ length self.old.out.now * 8 }
        ensures wrote { Wrote self.old self.new (run (F.width moduli) (map F.bare xs.now)) }
        ensures area { self.new.out.ghost_name ≡ self.old.out.ghost_name }
    {
        for x in xs {
            self.put(moduli, *x);
        }
    }

    // Writes what is held, and zero bits to the end of the last byte.
    pub fn finish(&mut self)
        requires { length self.old.out.now ≡ bytes_for (length (written self.old)) }
        ensures bytes { run 8 self.new.out.now ≡ filled (written self.old) }
        ensures area { self.new.out.ghost_name ≡ self.old.out.ghost_name }
    {
        let word = (self.acc << (32 - self.held)) % 0x1_0000_0000;
        let at = self.at;
        let rest = &mut self.out[at..];
        rest.copy_from_slice(&(word as u32).to_be_bytes()[..rest.len()]);
    }
}
