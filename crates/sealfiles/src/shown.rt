// What is told of sets and racks.
use crate::racks::{load_rack, load_set};
use crate::stop::Stop;
use card::card;
use report::{
    COSTS, NEIGHBOURS, Part, RING, print_part, print_refusals, print_report, print_table,
};

// The built-in sets, and what certainty costs.
pub fn show_sets<'a>(rt: &HostRuntime) -> Result<(), Stop<'a>> {
    print_table::<Stop>(rt, Part::Numbers)?;
    println!(rt; "")?;
    print_table::<Stop>(rt, Part::Line)?;
    println!(rt; "{RING}")?;
    println!(rt; "")?;
    print_table::<Stop>(rt, Part::Parcels)?;
    println!(rt; "{COSTS}")?;
    print_table::<Stop>(rt, Part::Neighbour)?;
    println!(rt; "{NEIGHBOURS}")?;
    print_refusals(rt)?;
    Ok(())
}

pub fn show_set<'a>(rt: &HostRuntime, path: &'a str) -> Result<(), Stop<'a>> {
    print_report(rt, &load_set(rt, path)?)?;
    Ok(())
}

// The line to note beside a till's serial number.
pub fn show_card<'a>(rt: &HostRuntime, serial: &str, path: &'a str) -> Result<(), Stop<'a>> {
    let set = load_set(rt, path)?;
    let line = card(rt.alloc(), serial, &set)?;
    println!(rt; "{line}")?;
    Ok(())
}

// The set of a rack file, and which of its places are in use.
pub fn show_rack<'a>(rt: &HostRuntime, path: &'a str) -> Result<(), Stop<'a>> {
    let held = load_rack(rt, path)?;
    print_part(rt, Part::Numbers, &held.set)?;
    println!(rt; "")?;
    print_part(rt, Part::Line, &held.set)?;
    println!(rt; "")?;
    for (place, record) in held.places.iter().enumerate() {
        match record {
            None => println!(rt; "place {place}: empty")?,
            Some(_) => println!(rt; "place {place}: in use")?,
        }
    }
    Ok(())
}
