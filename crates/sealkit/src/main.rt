// What a parameter set promises by its numbers alone.
#![tactic(auto)]

mod stop;

use crate::stop::{BadFile, Stop};
use params::set::Set;
use report::{COSTS, NEIGHBOURS, Part, RING, print_refusals, print_report, print_table};
use setfile::draft::Draft;
use setfile::file::read_set;
use setfile::proposed::proposal;
use std::process::ExitCode;
use std::rt::{Env, Files};
use std::{env, fs};

const HELP: &str = "\
sealkit              the built-in sets, two that are unlawful, and what being below the line costs
sealkit sets         the built-in sets alone
sealkit set FILE     one set, read from a set file
sealkit help         this text

A set file has a line for each field, in any order; # begins a comment, and spaces are free:
    n = 16           coefficients
    h = 2            signs in a secret
    qb = 8           q = 2^qb, the modulus before rounding
    pb = 6           p = 2^pb, the modulus after rounding
    tb = 3           t = 2^tb, the modulus of symbols
    kappa = 8        payload bits
    f = 1            symbols that the code mends
    lengths = 3, 4   its 2 f check lengths; may be left out where f = 0
    block = no       whether the first check goes by blocks, yes or no; may be left out for no";

const OPENING: &str = "\
Can a parcel that nobody touched fail to open at the till that it was sealed for?

This is the part of the answer that needs no secret. For a parameter set, B = q/(2t) + hq/p is the
bound on the noise of a symbol, and q/4 is the line that the noise must not cross. Proved:
  - whatever the seeds, no symbol's noise is further from zero than B;
  - a bit is read as sealed exactly while its symbol's noise is in band, from -q/4 to below q/4;
  - a set is below the line, 2p + 4ht < pt, exactly if B < q/4;
  - a parcel that is sealed to a published key opens to the station's secret, until the place is
    retired, if at most f of its symbols are out of band. Below the line none ever is.
Where a set is not below the line, these numbers rule nothing out and say nothing more.
";

// The built-in sets.
fn show_sets(rt: &HostRuntime) -> Result<(), Stop> {
    print_table::<Stop>(rt, Part::Numbers)?;
    println!(rt; "")?;
    print_table::<Stop>(rt, Part::Line)?;
    println!(rt; "{RING}")?;
    Ok(())
}

// The whole task: the built-in sets, what an unlawful set gets, and what being below the line costs.
fn show_all(rt: &HostRuntime) -> Result<(), Stop> {
    println!(rt; "{OPENING}")?;
    show_sets(rt)?;
    println!(rt; "")?;
    print_table::<Stop>(rt, Part::Parcels)?;
    print_refusals(rt)?;
    println!(rt; "{COSTS}")?;
    print_table::<Stop>(rt, Part::Neighbour)?;
    println!(rt; "{NEIGHBOURS}")?;
    Ok(())
}

// The draft that a file states.
fn load_draft(rt: &HostRuntime, path: &str) -> Result<Draft, BadFile> {
    let text = fs::read(rt, path)?;
    Ok(read_set(text.as_slice())?)
}

// The set that a file states.
fn load_set(rt: &HostRuntime, path: String) -> Result<Set, Stop> {
    let draft = load_draft(rt, path.as_str()).map_err(|why| Stop::File(path, why))?;
    Ok(Set::make(&proposal(&draft))?)
}

// The report on the set of a file.
fn show_file(rt: &HostRuntime, path: String) -> Result<(), Stop> {
    Ok(print_report(rt, &load_set(rt, path)?)?)
}

// Does what the words of the command line ask.
fn run(rt: &HostRuntime) -> Result<(), Stop> {
    let mut words = env::args(rt)?.skip(1);
    let Some(command) = words.next() else {
        return show_all(rt);
    };
    let file = words.next();
    if words.next().is_some() {
        return Err(Stop::Usage);
    }
    match (command.as_str(), file) {
        ("help", None) => Ok(println!(rt; "{HELP}")?),
        ("sets", None) => show_sets(rt),
        ("set", Some(path)) => show_file(rt, path),
        _ => Err(Stop::Usage),
    }
}

fn main(rt: HostRuntime) -> ExitCode {
    match run(&rt) {
        Ok(()) => ExitCode::SUCCESS,
        Err(stop) => {
            let _ = eprintln!(rt; "{stop}");
            ExitCode::FAILURE
        }
    }
}
