// The calls of the kit, on files.
use crate::files::{Output, check_name, read_bytes, write_one, write_two};
use crate::racks::{Site, load_set, store_rack};
use crate::stop::Stop;
use calls::AREA_WORDS;
use lab::{gauge, raw_read};
use rack::PLACES;
use seal::seal;
use source::Source;

// The two working areas of a call.
#[derive(Drop)]
pub struct Areas {
    pub secret: [u16; AREA_WORDS],
    pub product: [u16; AREA_WORDS],
}

impl Areas {
    pub fn new() -> Areas {
        Areas {
            secret: [0; AREA_WORDS],
            product: [0; AREA_WORDS],
        }
    }
}

pub fn make_rack<'a>(rt: &HostRuntime, set: &'a str, rack: &'a str) -> Result<(), Stop<'a>> {
    check_name(rack, &[set])?;
    let set = load_set(rt, set)?;
    store_rack(rt, rack, &set, &[None; PLACES])
}

pub fn retire<'a, S: Source + Drop>(rt: &HostRuntime, site: Site<'a, S>) -> Result<(), Stop<'a>> {
    let mut till = site.load(rt)?;
    let place = till.place;
    till.rack.retire(place)?;
    till.store(rt)
}

pub fn issue<'a, S: Source + Drop>(
    rt: &HostRuntime,
    site: Site<'a, S>,
    coins: &'a str,
) -> Result<(), Stop<'a>> {
    check_name(site.path, &[coins])?;
    let mut till = site.load(rt)?;
    let place = till.place;
    let coins = read_bytes(rt, coins)?;
    let mut areas = Areas::new();
    till.rack.issue(
        place,
        coins.as_slice(),
        &mut areas.secret,
        &mut areas.product,
    )?;
    till.store(rt)
}

pub fn publish<'a, S: Source + Drop>(
    rt: &HostRuntime,
    site: Site<'a, S>,
    key: &'a str,
) -> Result<(), Stop<'a>> {
    check_name(key, &[site.path])?;
    let mut till = site.load(rt)?;
    let place = till.place;
    let mut bytes = vec![in rt.alloc(); 0u8; till.rack.set().key_len()]?;
    let mut areas = Areas::new();
    till.rack.publish(
        place,
        bytes.as_mut_slice(),
        &mut areas.secret,
        &mut areas.product,
    )?;
    write_one(rt, key, bytes.as_slice())
}

pub fn open<'a, S: Source + Drop>(
    rt: &HostRuntime,
    site: Site<'a, S>,
    parcel: &'a str,
    secret: &'a str,
) -> Result<(), Stop<'a>> {
    check_name(secret, &[site.path, parcel])?;
    let mut till = site.load(rt)?;
    let place = till.place;
    let parcel = read_bytes(rt, parcel)?;
    let mut bytes = [0u8; 32];
    let mut areas = Areas::new();
    till.rack.open(
        place,
        parcel.as_slice(),
        &mut bytes,
        &mut areas.secret,
        &mut areas.product,
    )?;
    write_one(rt, secret, &bytes)
}

pub fn seal_message<'a, S: Source>(
    rt: &HostRuntime,
    source: &mut S,
    set: &'a str,
    key: &'a str,
    message: &'a str,
    parcel: &'a str,
    secret: &'a str,
) -> Result<(), Stop<'a>> {
    check_name(parcel, &[set, key, message, secret])?;
    check_name(secret, &[set, key, message])?;
    let set = load_set(rt, set)?;
    let key = read_bytes(rt, key)?;
    let message = read_bytes(rt, message)?;
    let mut sealed = vec![in rt.alloc(); 0u8; set.parcel_len()]?;
    let mut bytes = [0u8; 32];
    let mut areas = Areas::new();
    seal(
        &set,
        source,
        key.as_slice(),
        message.as_slice(),
        sealed.as_mut_slice(),
        &mut bytes,
        &mut areas.secret,
        &mut areas.product,
    )?;
    let first = Output::new(rt, parcel, sealed.as_slice())?;
    let second = Output::new(rt, secret, &bytes)?;
    write_two(rt, &first, &second)
}

pub fn read_raw<'a, S: Source>(
    rt: &HostRuntime,
    source: &mut S,
    set: &'a str,
    seed: &'a str,
    parcel: &'a str,
    raw: &'a str,
) -> Result<(), Stop<'a>> {
    check_name(raw, &[set, seed, parcel])?;
    let set = load_set(rt, set)?;
    let seed = read_bytes(rt, seed)?;
    let parcel = read_bytes(rt, parcel)?;
    let mut bits = vec![in rt.alloc(); 0u8; set.code.mu as usize]?;
    let mut areas = Areas::new();
    raw_read(
        &set,
        source,
        parcel.as_slice(),
        seed.as_slice(),
        bits.as_mut_slice(),
        &mut areas.secret,
        &mut areas.product,
    )?;
    write_one(rt, raw, bits.as_slice())
}

// Numbers on one line, with a space between each two.
fn print_numbers(rt: &HostRuntime, numbers: &[i32]) -> Result<(), Stop<'static>> {
    let mut line = String::new(rt.alloc());
    for x in numbers {
        if !line.is_empty() {
            line.push_str(" ")?;
        }
        line.push_str(x.to_string(rt.alloc())?.as_str())?;
    }
    println!(rt; "{line}")?;
    Ok(())
}

pub fn gauge_seeds<'a, S: Source>(
    rt: &HostRuntime,
    source: &mut S,
    set: &'a str,
    seeds: &'a str,
) -> Result<(), Stop<'a>> {
    let set = load_set(rt, set)?;
    let seeds = read_bytes(rt, seeds)?;
    let mut noise = vec![in rt.alloc(); 0i32; set.code.mu as usize]?;
    let mut areas = Areas::new();
    let outside = gauge(
        &set,
        source,
        seeds.as_slice(),
        noise.as_mut_slice(),
        &mut areas.secret,
        &mut areas.product,
    )?;
    print_numbers(rt, noise.as_slice())?;
    println!(rt; "out of band: {outside}")?;
    println!(rt; "bound: {}", set.bound())?;
    Ok(())
}
