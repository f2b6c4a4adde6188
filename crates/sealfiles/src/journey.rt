// One parcel's journey, from the coins of a till to its secret, and the answer that it shows.
use crate::commands::Areas;
use crate::stop::Stop;
use crate::texts::{JOURNEY, QUESTION};
use calls::thirds;
use code::encode;
use kit::{KitSource, always_opens, new_rack, new_source};
use lab::{correct_raw, gauge, raw_read};
use listed::{LISTED, Listed};
use neighbour::{cost_of, neighbour};
use params::set::Set;
use rack::Rack;
use scheme::station_seed;
use seal::seal;
use std::fmt;

// The place of the rack that the journey uses.
const PLACE: u8 = 0;

// The first bytes of something, in hexadecimal.
#[derive(Clone, Copy)]
struct Front<'a> {
    bytes: &'a [u8],
}

impl fmt::Display for Front<'_> {
    fn fmt<W: fmt::Write>(&self, f: &mut fmt::Formatter<W>) -> fmt::Result {
        for byte in self.bytes.iter().take(8) {
            write!(f, "{byte:02x}")?;
        }
        write!(f, "..")
    }
}

// Bytes that stand for random ones: each is 29 more than the one before.
fn fill(bytes: &mut [u8], first: u8) {
    let mut next = first;
    for byte in bytes.iter_mut() {
        *byte = next;
        next = next.wrapping_add(29);
    }
}

// The seed of the till's secret, from the coins.
fn till_seed(coins: &[u8; 96]) -> [u8; 32] {
    thirds(coins)[1]
}

// The seeds of a gauge: σ and the seed of the till's secret from the coins, and the seed of the station's from the sealing.
fn gauge_seeds(coins: &[u8; 96], station: &[u8; 32]) -> [u8; 96] {
    let mut seeds = [0u8; 96];
    seeds[..64].copy_from_slice(&coins[..64]);
    seeds[64..].copy_from_slice(station);
    seeds
}

// Both ends and what passes between them.
#[derive(Drop)]
struct Journey {
    set: Set,
    rack: Rack<KitSource>,
    station: KitSource,
    coins: [u8; 96],
    message: Vec<u8>,
    key: Vec<u8>,
    parcel: Vec<u8>,
    secret: [u8; 32],
}

impl Journey {
    fn new(rt: &HostRuntime, set: Set) -> Result<Journey, Stop<'static>> {
        let mut coins = [0u8; 96];
        fill(&mut coins, 1);
        let mut message = vec![in rt.alloc(); 0u8; set.code.shape.kappa as usize / 8]?;
        fill(message.as_mut_slice(), 165);
        Ok(Journey {
            set,
            rack: new_rack(set),
            station: new_source(),
            coins,
            message,
            key: vec![in rt.alloc(); 0u8; set.key_len()]?,
            parcel: vec![in rt.alloc(); 0u8; set.parcel_len()]?,
            secret: [0; 32],
        })
    }

    fn issue(&mut self, rt: &HostRuntime) -> Result<(), Stop<'static>> {
        let mut areas = Areas::new();
        self.rack
            .issue(PLACE, &self.coins, &mut areas.secret, &mut areas.product)?;
        println!(rt; " 2  issue     coins of 96 bytes stand at place {PLACE}")?;
        Ok(())
    }

    fn publish(&mut self, rt: &HostRuntime) -> Result<(), Stop<'static>> {
        let mut areas = Areas::new();
        self.rack.publish(
            PLACE,
            self.key.as_mut_slice(),
            &mut areas.secret,
            &mut areas.product,
        )?;
        let front = Front {
            bytes: self.key.as_slice(),
        };
        println!(rt; " 3  publish   a key of {} bytes, {front}", self.key.len())?;
        Ok(())
    }

    fn seal(&mut self, rt: &HostRuntime) -> Result<(), Stop<'static>> {
        let mut areas = Areas::new();
        seal(
            &self.set,
            &mut self.station,
            self.key.as_slice(),
            self.message.as_slice(),
            self.parcel.as_mut_slice(),
            &mut self.secret,
            &mut areas.secret,
            &mut areas.product,
        )?;
        let front = Front {
            bytes: self.parcel.as_slice(),
        };
        let secret = Front {
            bytes: &self.secret,
        };
        println!(rt;
            " 4  seal      a message of {} bytes in a parcel of {}, {front}; the station's secret is {secret}",
            self.message.len(),
            self.parcel.len()
        )?;
        Ok(())
    }

    // Answers how many symbols are out of band.
    fn gauge(&mut self, rt: &HostRuntime) -> Result<usize, Stop<'static>> {
        let mut noise = vec![in rt.alloc(); 0i32; self.set.code.mu as usize]?;
        let mut areas = Areas::new();
        let seed = station_seed(self.message.as_slice(), self.key.as_slice());
        let seeds = gauge_seeds(&self.coins, &seed);
        let outside = gauge(
            &self.set,
            &mut self.station,
            &seeds,
            noise.as_mut_slice(),
            &mut areas.secret,
            &mut areas.product,
        )?;
        println!(rt;
            " 5  gauge     the noise of {} symbols is from {} to {}, the bound is {}; out of band: {outside}",
            noise.len(),
            noise.iter().copied().min().unwrap_or(0),
            noise.iter().copied().max().unwrap_or(0),
            self.set.bound()
        )?;
        Ok(outside)
    }

    fn raw_read(&mut self, rt: &HostRuntime) -> Result<Vec<u8>, Stop<'static>> {
        let mut raw = vec![in rt.alloc(); 0u8; self.set.code.mu as usize]?;
        let mut areas = Areas::new();
        raw_read(
            &self.set,
            &mut self.station,
            self.parcel.as_slice(),
            &till_seed(&self.coins),
            raw.as_mut_slice(),
            &mut areas.secret,
            &mut areas.product,
        )?;
        let wrong = wrong_bits(
            raw.as_slice(),
            code_word(rt, &self.set, self.message.as_slice())?.as_slice(),
        );
        println!(rt;
            " 6  raw read  {} bits; not as they were sealed: {wrong}",
            raw.len()
        )?;
        Ok(raw)
    }

    fn correct(&self, rt: &HostRuntime, raw: &[u8]) -> Result<(), Stop<'static>> {
        let mut found = vec![in rt.alloc(); 0u8; self.message.len()]?;
        let outcome = correct_raw(&self.set, raw, found.as_mut_slice());
        let words = if outcome.is_ok() && found == self.message {
            "is the message that was sealed"
        } else {
            "is another message than the one sealed"
        };
        println!(rt; " 7  correct   what the raw bits correct to {words}")?;
        Ok(())
    }

    fn open(&mut self, rt: &HostRuntime) -> Result<[u8; 32], Stop<'static>> {
        let mut secret = [0u8; 32];
        let mut areas = Areas::new();
        self.rack.open(
            PLACE,
            self.parcel.as_slice(),
            &mut secret,
            &mut areas.secret,
            &mut areas.product,
        )?;
        let front = Front { bytes: &secret };
        println!(rt; " 8  open      the till's secret is {front}")?;
        Ok(secret)
    }

    fn compare(&self, rt: &HostRuntime, secret: &[u8; 32]) -> Result<(), Stop<'static>> {
        let words = if *secret == self.secret {
            "the secrets are equal"
        } else {
            "the secrets differ"
        };
        println!(rt; " 9  compare   {words}")?;
        Ok(())
    }

    fn retire(&mut self, rt: &HostRuntime) -> Result<(), Stop<'static>> {
        self.rack.retire(PLACE)?;
        println!(rt; "10  retire    place {PLACE} is empty")?;
        Ok(())
    }

    // Every action in its turn. Answers how many symbols were out of band.
    fn travel(&mut self, rt: &HostRuntime) -> Result<usize, Stop<'static>> {
        self.issue(rt)?;
        self.publish(rt)?;
        self.seal(rt)?;
        let outside = self.gauge(rt)?;
        let raw = self.raw_read(rt)?;
        self.correct(rt, raw.as_slice())?;
        let secret = self.open(rt)?;
        self.compare(rt, &secret)?;
        self.retire(rt)?;
        Ok(outside)
    }
}

// The code word of a message; none where it does not have κ/8 bytes.
fn code_word(rt: &HostRuntime, set: &Set, message: &[u8]) -> Result<Vec<u8>, Stop<'static>> {
    let mut word = vec![in rt.alloc(); 0u8; set.code.mu as usize]?;
    if message.len() == set.code.shape.kappa as usize / 8 {
        encode(&set.code, message, word.as_mut_slice());
    }
    Ok(word)
}

fn wrong_bits(raw: &[u8], word: &[u8]) -> usize {
    raw.iter()
        .zip(word)
        .filter(|(bit, sealed)| bit != sealed)
        .count()
}

// The first action: the set.
fn make_set(rt: &HostRuntime, listed: &Listed) -> Result<Set, Stop<'static>> {
    let set = listed.make()?;
    let moduli = set.moduli;
    println!(rt;
        " 1  set       {}: n {}, h {}, q {}, p {}, t {}, kappa {}, f {}, mu {}",
        listed.name,
        set.n,
        set.h,
        moduli.q(),
        moduli.p(),
        moduli.t(),
        set.code.shape.kappa,
        set.code.shape.f,
        set.code.mu
    )?;
    Ok(set)
}

// What being below the line would cost the set.
fn price(rt: &HostRuntime, set: &Set) -> Result<(), Stop<'static>> {
    let Some(near) = neighbour(set) else {
        println!(rt; "     No other pb and tb put this n and h below the line.")?;
        return Ok(());
    };
    println!(rt;
        "     With q {}, p {} and t {} and all else as it is B would be {} and q/4 {}: below the line, for {} bytes\n     of key and parcel in place of {}. `sealkit sets` has the others.",
        near.moduli.q(),
        near.moduli.p(),
        near.moduli.t(),
        near.bound(),
        near.moduli.q() / 4,
        cost_of(&near),
        cost_of(set)
    )?;
    Ok(())
}

// The answer in steps, for a set and a parcel with so many symbols out of band.
fn answer(rt: &HostRuntime, set: &Set, outside: usize) -> Result<(), Stop<'static>> {
    let quarter = set.moduli.q() / 4;
    let bound = set.bound();
    let f = set.code.shape.f;
    println!(rt; "{QUESTION}")?;
    println!(rt;
        "  1. Each symbol of a parcel carries one bit. The till reads it as it was sealed exactly while the symbol's\n     noise is in band, from -q/4 up to, but not including, q/4. Here q/4 is {quarter}."
    )?;
    println!(rt;
        "  2. Whatever the seeds are, no symbol's noise is further from zero than B = q/(2t) + hq/p. Here B is {bound}."
    )?;
    println!(rt;
        "  3. Where B < q/4, every bit is read as it was sealed, and a parcel that is sealed to a published key opens\n     to the station's secret, until the place is retired."
    )?;
    if always_opens(&new_rack(*set)) {
        println!(rt; "     That is so here: such a parcel never fails to open.")?;
    } else {
        println!(rt; "     Here B >= q/4, so this promises nothing for this set.")?;
    }
    println!(rt;
        "  4. Such a parcel also opens wherever at most f of its symbols are out of band. Here f is {f}, and the\n     parcel above had {outside}. How many a parcel has can be gauged from its seeds; the numbers of the set\n     alone do not say."
    )?;
    if !set.below_line() {
        price(rt, set)?;
    }
    Ok(())
}

// The journey with the last of the built-in sets.
pub fn run_journey<'a>(rt: &HostRuntime) -> Result<(), Stop<'a>> {
    println!(rt; "{JOURNEY}")?;
    let Some(listed) = LISTED.last() else {
        return Err(Stop::Usage);
    };
    let set = make_set(rt, listed)?;
    let mut journey = Journey::new(rt, set)?;
    let outside = journey.travel(rt)?;
    answer(rt, &set, outside)
}
