// A station and a till, with the buffers of their calls.
use anyhow::anyhow;
use calls::{AREA_WORDS, Refusal};
use fetch::Fetch;
use lab::{gauge, raw_read};
use params::set::Set;
use rack::Rack;
use seal::seal;
use shake::Absorbing;
use sponge::Sponge;
use std::alloc::{AllocError, Global};

// What a seed is for, as its last byte tells. No two uses share a seed.
#[derive(Clone, Copy)]
enum Use {
    Polynomial = 1,
    Till = 2,
    Rejection = 3,
    Station = 4,
}

// The run's number, then zeros, then what the seed is for.
fn seed(run: u32, usage: Use) -> [u8; 32] {
    let mut bytes = [0u8; 32];
    bytes[..4].copy_from_slice(&run.to_le_bytes());
    bytes[31] = usage as u8;
    bytes
}

// σ and the seed of s, then z or the seed of r.
fn seeds(run: u32, third: Use) -> [[u8; 32]; 3] {
    [
        seed(run, Use::Polynomial),
        seed(run, Use::Till),
        seed(run, third),
    ]
}

fn fill_message(message: &mut [u8], run: u32) {
    let mut next = (run.wrapping_mul(31).wrapping_add(5) % 256) as u8;
    for byte in message.iter_mut() {
        *byte = next;
        next = next.wrapping_add(17);
    }
}

fn absorb_numbers(numbers: &[i32], sum: &mut Absorbing) {
    for x in numbers {
        sum.absorb(&x.to_le_bytes());
    }
}

fn accepted<T>(answer: Result<T, Refusal>) -> anyhow::Result<T> {
    answer.map_err(|_| anyhow!("a call was refused"))
}

// A station and a till that share one set. The till's coins are at place 0.
#[derive(Drop)]
pub struct Pair {
    set: Set,
    rack: Rack<Fetch<Sponge>>,
    station: Fetch<Sponge>,
    message: Vec<u8>,
    raw: Vec<u8>,
    noise: Vec<i32>,
    outside: usize,
    pub key: Vec<u8>,
    pub parcel: Vec<u8>,
    pub secret: [u8; 32],
    secret_area: [u16; AREA_WORDS],
    product_area: [u16; AREA_WORDS],
}

impl Pair {
    pub fn new(heap: Global, set: Set) -> Result<Pair, AllocError> {
        let mu = set.code.mu as usize;
        Ok(Pair {
            set,
            rack: Rack::new(set, Fetch::new(Sponge::new())),
            station: Fetch::new(Sponge::new()),
            message: vec![in heap; 0u8; set.code.shape.kappa as usize / 8]?,
            raw: vec![in heap; 0u8; mu]?,
            noise: vec![in heap; 0i32; mu]?,
            outside: 0,
            key: vec![in heap; 0u8; set.key_len()]?,
            parcel: vec![in heap; 0u8; set.parcel_len()]?,
            secret: [0u8; 32],
            secret_area: [0u16; AREA_WORDS],
            product_area: [0u16; AREA_WORDS],
        })
    }

    fn write_message(&mut self, run: u32) {
        fill_message(self.message.as_mut_slice(), run);
    }

    pub fn publish(&mut self) -> anyhow::Result<()> {
        accepted(
            self.rack.publish(
                0,
                self.key.as_mut_slice(),
                &mut self.secret_area,
                &mut self.product_area,
            ),
        )
    }

    fn seal(&mut self) -> anyhow::Result<()> {
        accepted(seal(
            &self.set,
            &mut self.station,
            self.key.as_slice(),
            self.message.as_slice(),
            self.parcel.as_mut_slice(),
            &mut self.secret,
            &mut self.secret_area,
            &mut self.product_area,
        ))
    }

    // Seals the run's message.
    pub fn seal_next(&mut self, run: u32) -> anyhow::Result<()> {
        self.write_message(run);
        self.seal()
    }

    pub fn open(&mut self) -> anyhow::Result<()> {
        accepted(
            self.rack.open(
                0,
                self.parcel.as_slice(),
                &mut self.secret,
                &mut self.secret_area,
                &mut self.product_area,
            ),
        )
    }

    fn raw_read(&mut self, run: u32) -> anyhow::Result<()> {
        accepted(raw_read(
            &self.set,
            &mut self.station,
            self.parcel.as_slice(),
            &seed(run, Use::Till),
            self.raw.as_mut_slice(),
            &mut self.secret_area,
            &mut self.product_area,
        ))
    }

    pub fn gauge(&mut self, run: u32) -> anyhow::Result<()> {
        self.outside = accepted(gauge(
            &self.set,
            &mut self.station,
            seeds(run, Use::Station).as_flattened(),
            self.noise.as_mut_slice(),
            &mut self.secret_area,
            &mut self.product_area,
        ))?;
        Ok(())
    }

    // A key and a parcel of the run's seeds and message, with new coins at the till.
    pub fn prepare(&mut self, run: u32) -> anyhow::Result<()> {
        let _ = self.rack.retire(0);
        accepted(
            self.rack.issue(
                0,
                seeds(run, Use::Rejection).as_flattened(),
                &mut self.secret_area,
                &mut self.product_area,
            ),
        )?;
        self.publish()?;
        self.seal_next(run)
    }

    // Open and raw read of the parcel as it stands.
    fn read_parcel(&mut self, run: u32, sum: &mut Absorbing) -> anyhow::Result<()> {
        self.open()?;
        sum.absorb(&self.secret);
        self.raw_read(run)?;
        sum.absorb(self.raw.as_slice());
        Ok(())
    }

    // Changes one bit of the parcel.
    fn spoil(&mut self) {
        if let [_, first, ..] = self.parcel.as_mut_slice() {
            *first ^= 0x80;
        }
    }

    pub fn absorb_noise(&self, sum: &mut Absorbing) {
        sum.absorb(&(self.outside as u64).to_le_bytes());
        absorb_numbers(self.noise.as_slice(), sum);
    }

    // Every call with the run's seeds and message, and open and raw read of a parcel with one bit changed.
    pub fn run_all(&mut self, run: u32, sum: &mut Absorbing) -> anyhow::Result<()> {
        self.prepare(run)?;
        sum.absorb(self.key.as_slice());
        sum.absorb(self.parcel.as_slice());
        sum.absorb(&self.secret);
        self.read_parcel(run, sum)?;
        self.spoil();
        self.read_parcel(run, sum)?;
        self.gauge(run)?;
        self.absorb_noise(sum);
        Ok(())
    }
}
