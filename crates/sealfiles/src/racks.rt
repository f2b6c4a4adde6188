// Sets and racks on files.
use crate::files::{read_bytes, write_one};
use crate::stop::Stop;
use params::set::Set;
use rack::{PLACES, Rack, Record};
use rackfile::{Image, decode, encode, numbers_of, proposal_of};
use setfile::file::read_set;
use setfile::proposed::proposal;
use source::Source;

// The set that a file states.
pub fn load_set<'a>(rt: &HostRuntime, path: &'a str) -> Result<Set, Stop<'a>> {
    let text = read_bytes(rt, path)?;
    let draft = read_set(text.as_slice()).map_err(|fault| Stop::BadSet(path, fault))?;
    Ok(Set::make(&proposal(&draft))?)
}

// What a rack file holds.
#[derive(Clone, Copy)]
pub struct Loaded {
    pub set: Set,
    pub places: [Record; PLACES],
}

pub fn load_rack<'a>(rt: &HostRuntime, path: &'a str) -> Result<Loaded, Stop<'a>> {
    let bytes = read_bytes(rt, path)?;
    let image = decode(bytes.as_slice()).map_err(|fault| Stop::BadRack(path, fault))?;
    Ok(Loaded {
        set: Set::make(&proposal_of(&image.numbers))?,
        places: image.places,
    })
}

// Writes a rack file whole.
pub fn store_rack<'a>(
    rt: &HostRuntime,
    path: &'a str,
    set: &Set,
    places: &[Record; PLACES],
) -> Result<(), Stop<'a>> {
    let image = Image {
        numbers: numbers_of(set),
        places: *places,
    };
    write_one(rt, path, &encode(&image))
}

// A place of a rack on a file, as a command names it, and the source that the rack draws from.
#[derive(Drop)]
pub struct Site<'a, S> {
    pub path: &'a str,
    pub place: &'a str,
    pub source: S,
}

impl<'a, S: Source + Drop> Site<'a, S> {
    // Reads the rack. Whether it has such a place is the calls' to say.
    pub fn load(self, rt: &HostRuntime) -> Result<Till<'a, S>, Stop<'a>> {
        let Site {
            path,
            place,
            source,
        } = self;
        let place = place.parse::<u8>().map_err(|_| Stop::NoPlace(place))?;
        let held = load_rack(rt, path)?;
        Ok(Till {
            path,
            place,
            rack: Rack::resume(held.set, source, held.places),
        })
    }
}

// A rack that was read, and the place of it that a command is for.
#[derive(Drop)]
pub struct Till<'a, S> {
    path: &'a str,
    pub place: u8,
    pub rack: Rack<S>,
}

impl<'a, S: Source> Till<'a, S> {
    // Writes the rack back to its file.
    pub fn store(&self, rt: &HostRuntime) -> Result<(), Stop<'a>> {
        store_rack(rt, self.path, self.rack.set(), self.rack.places())
    }
}
