// Packing and unpacking of 1200 fields, many times over, for bench/pack.sh: `pack` and `unpack` take fields of 11 bits, and no argument a few runs of 6 bits.
#![tactic(auto)]

ghost use Rattle.std.specs.Prelude.{◌≡◌, ◌*◌, length};
ghost use Rattle.params.specs.Sizes.{bytes_for};

use anyhow::anyhow;
use pack::{fields, pack};
use params::moduli::Moduli;
use ring::{Rounded, Symbol};
use std::env;

const FIELDS: usize = 1200;

// The bytes of the widest fields.
const MOST_BYTES: usize = 2250;

const MANY: u32 = 200_000;

const FEW: u32 = 10;

fn mixed(sum: u32, x: u32) -> u32 {
    sum.wrapping_mul(31).wrapping_add(x)
}

fn fill_fields(xs: &mut [Rounded]) {
    let mut word: u32 = 12345;
    for x in xs.iter_mut() {
        word = word.wrapping_mul(1103515245).wrapping_add(12345);
        *x = Rounded(((word >> 16) & 63) as u16);
    }
}

// The fields, and as many bytes as they take.
#[derive(Drop)]
struct Lists<'a> {
    moduli: Moduli,
    xs: &'a mut [Rounded],
    bytes: &'a mut [u8],
    ghost long: { length bytes.now ≡ bytes_for (length xs.now * moduli.pb) },
}

impl Lists<'_> {
    // Packs, and gives the last byte. One field is changed first, so that no run is the same as the one before.
    fn pack_once(&mut self, r: u32) -> u32 {
        if let Some(x) = self.xs.get_mut((r % 1200) as usize) {
            *x = Rounded((r & 63) as u16);
        }
        let none: [Symbol; 0] = [];
        pack(self.moduli, self.xs, &none, self.bytes);
        self.bytes.last().map_or(0, |byte| u32::from(*byte))
    }

    // Unpacks, and gives the last field. One bit is changed first.
    fn unpack_once(&mut self, r: u32) -> u32 {
        if let Some(byte) = self.bytes.get_mut((r % 900) as usize) {
            *byte ^= 1;
        }
        let mut none: [Symbol; 0] = [];
        fields(self.moduli, self.bytes, self.xs, &mut none);
        self.xs.last().map_or(0, |x| u32::from(x.0))
    }

    // Packs so many times: the sum of what each gives, and of the bytes.
    fn pack_sum(&mut self, times: u32) -> u32 {
        let mut sum = 0;
        for r in 0..times {
            sum = mixed(sum, self.pack_once(r));
        }
        let bytes = self.bytes.iter();
        mixed(sum, bytes.fold(0, |sum, byte| mixed(sum, u32::from(*byte))))
    }

    // Unpacks so many times: the sum of what each gives, and of the fields.
    fn unpack_sum(&mut self, times: u32) -> u32 {
        let mut sum = 0;
        for r in 0..times {
            sum = mixed(sum, self.unpack_once(r));
        }
        let xs = self.xs.iter();
        mixed(sum, xs.fold(0, |sum, x| mixed(sum, u32::from(x.0))))
    }
}

// The sums of what is packed so many times, and of what is then unpacked.
fn bench(moduli: Moduli, pack_times: u32, unpack_times: u32) -> (u32, u32) {
    let mut xs = [Rounded(0); FIELDS];
    let mut bytes = [0u8; MOST_BYTES];
    fill_fields(&mut xs);
    let len = (FIELDS * moduli.pb as usize).div_ceil(8);
    let mut lists = Lists {
        moduli,
        xs: &mut xs,
        bytes: &mut bytes[..len],
    };
    let packed = lists.pack_sum(pack_times);
    (packed, lists.unpack_sum(unpack_times))
}

fn run(rt: &HostRuntime) -> anyhow::Result<()> {
    let narrow = Moduli {
        qb: 8,
        pb: 6,
        tb: 3,
    };
    let wide = Moduli {
        qb: 16,
        pb: 11,
        tb: 4,
    };
    let (moduli, pack_times, unpack_times) = match env::args(rt)?.nth(1) {
        None => (narrow, FEW, FEW),
        Some(word) => match word.as_str() {
            "pack" => (wide, MANY, 1),
            "unpack" => (wide, 1, MANY),
            _ => return Err(anyhow!("the argument is neither pack nor unpack")),
        },
    };
    let (packed, unpacked) = bench(moduli, pack_times, unpack_times);
    println!(rt; "packed {packed}, unpacked {unpacked}")?;
    Ok(())
}

fn main(rt: HostRuntime) -> anyhow::Result<()> {
    run(&rt)
}
