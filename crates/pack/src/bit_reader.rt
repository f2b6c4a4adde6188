// Reading bits: bytes go into an accumulator of 64 bits, 32 bits at a time, from which fields are taken.
ghost use Rattle.std.specs.Prelude.{◌≡◌, ◌*◌, ◌+◌, ◌<◌, ◌≤◌, map, length, take, drop};
ghost use Rattle.pack.specs.Bits.{bits, value, run, cut};

use crate::field::Field;
use params::moduli::Moduli;

// Four bytes as one number of 32 bits.
fn word_of(bytes: [u8; 4]) -> u32
    ensures { bits 32 result ≡ run 8 bytes }
{
    u32::from_be_bytes(bytes)
}

// What is left to read: the bits held, which are the `held` low ones of `acc`, and then those of the bytes ahead.
// `fields` makes the only ones, over as many bytes as the run takes, so that no field is missing.
#[derive(Drop)]
pub struct BitReader<'a> {
    ahead: &'a [u8],
    acc: u64,
    held: u32,
    ghost fits: { held < 64 },
}

impl<'a> BitReader<'a> {
    ghost use Rattle.pack.specs.Places.{unread};

    // Before the first bit.
    #[tactic(auto, unfolding(crate::specs::Bits::bits))]
    pub fn new(bytes: &'a [u8]) -> BitReader<'a>
        ensures { unread result ≡ run 8 bytes.now }
    {
        BitReader {
            ahead: bytes,
            acc: 0,
            held: 0,
        }
    }

    // Takes in the last bytes, of which there are at most three.
    fn load_rest(&mut self)
        requires few { length self.old.ahead.now < 4 }
        requires held { self.old.held < 16 }
        ensures held { self.new.held ≡ self.old.held + length self.old.ahead.now * 8 }
        ensures unread { unread self.new ≡ unread self.old }
    {
        for byte in self.ahead {
            self.acc = (self.acc << 8) | *byte as u64;
            self.held += 8;
        }
        self.ahead = &[];
    }

    // Takes bytes in until w bits are held: four at once, or what is left where that is less.
    fn refill(&mut self, w: u32)
        requires narrow { w ≤ 15 }
        requires more { w ≤ length (unread self.old) }
        ensures held { w ≤ self.new.held }
        ensures unread { unread self.new ≡ unread self.old }
    {
        if self.held >= w {
            return;
        }
        match self.ahead.split_first_chunk::<4>() {
            Some((word, rest)) => {
                self.acc = (self.acc << 32) | word_of(*word) as u64;
                self.held += 32;
                self.ahead = rest;
            }
            None => self.load_rest(),
        }
    }

    // The next field.
    fn get<F: Field>(&mut self, moduli: Moduli) -> F
        requires { F.width moduli ≤ length (unread self.old) }
        ensures value { result ≡ F.made (value (take (F.width moduli) (unread self.old))) }
        ensures unread { unread self.new ≡ drop (F.width moduli) (unread self.old) }
    {
        let w = F::field_width(moduli);
        self.refill(w);
        self.held -= w;
        F::of(((self.acc >> self.held) & ((1u64 << w) - 1)) as u16)
    }

    // The next fields, as many as xs has.
    pub fn get_all<F: Field>(&mut self, moduli: Moduli, xs: &mut [F])
        requires { length xs.old * F.width moduli ≤ length (unread self.old) }
        ensures value { xs.new ≡ map F.made (cut (length xs.old) (F.width moduli) (unread self.old)) }
        ensures unread { unread self.new ≡ drop (length xs.old * F.width moduli) (unread self.old) }
    {
        for x in xs.iter_mut() {
            *x = self.get(moduli);
        }
    }
}
