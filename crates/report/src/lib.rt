// The tables that are told of sets, and the report on one set.
#![tactic(auto)]

use kit::{always_opens, new_rack};
use listed::{LISTED, UNLAWFUL};
use neighbour::{cost_of, neighbour};
use params::proposal::SetFault;
use params::set::Set;
use std::io;
use words::{Told, verdict};

pub const RING: &str = "
Keys and parcels are in bytes. Every set is taken in the cyclic ring as yet; Round5 takes its sets
without a code, those whose names end in 0d, in the smaller ring.";

pub const COSTS: &str = "
What being below the line costs. For each set that is not: the set with the same n, h and code and
the same qb - pb whose pb and tb put it below the line with the fewest bytes of key and parcel.";

pub const NEIGHBOURS: &str = "
No neighbour is a published set, and nothing here judges the security of one.";

// A table: the numbers of sets, their bounds and lines, their neighbours, or what becomes of parcels that nobody touched.
#[derive(Clone, Copy)]
pub enum Part {
    Numbers,
    Line,
    Neighbour,
    Parcels,
}

impl Part {
    // What stands above the columns.
    fn head(self) -> &'static str {
        match self {
            Part::Numbers =>
                "set                 n    h      q     p    t  kappa  f   mu   key  parcel",
            Part::Line => "set                 B    q/4   2p + 4ht        pt  verdict",
            Part::Neighbour =>
                "set             bytes  neighbour: q     p    t      B    q/4   key  parcel  bytes  more",
            Part::Parcels => "set             a parcel that nobody touched",
        }
    }
}

fn print_numbers(rt: &HostRuntime, name: &str, set: &Set) -> io::Result<()> {
    let moduli = set.moduli;
    let shape = set.code.shape;
    println!(rt;
        "{name:<14}{:>7}{:>5}{:>7}{:>6}{:>5}{:>7}{:>3}{:>5}{:>6}{:>8}",
        set.n,
        set.h,
        moduli.q(),
        moduli.p(),
        moduli.t(),
        shape.kappa,
        shape.f,
        set.code.mu,
        set.key_len(),
        set.parcel_len()
    )
}

fn print_line(rt: &HostRuntime, name: &str, set: &Set) -> io::Result<()> {
    println!(rt;
        "{name:<14}{:>7}{:>7}{:>11}{:>10}  {}",
        set.bound(),
        set.moduli.q() / 4,
        set.line_left(),
        set.line_right(),
        verdict(set)
    )
}

fn print_neighbour(rt: &HostRuntime, name: &str, set: &Set) -> io::Result<()> {
    let before = cost_of(set);
    let Some(near) = neighbour(set) else {
        return println!(rt; "{name:<14}{before:>7}  no pb and tb put it below the line");
    };
    let after = cost_of(&near);
    let sign = if after < before { '-' } else { '+' };
    println!(rt;
        "{name:<14}{before:>7}{:>14}{:>6}{:>5}{:>7}{:>7}{:>6}{:>8}{after:>7}  {sign}{}",
        near.moduli.q(),
        near.moduli.p(),
        near.moduli.t(),
        near.bound(),
        near.moduli.q() / 4,
        near.key_len(),
        near.parcel_len(),
        after.abs_diff(before)
    )
}

// Whether the kit promises that a parcel opens, asked of a rack of that set.
fn print_parcels(rt: &HostRuntime, name: &str, set: &Set) -> io::Result<()> {
    let rack = new_rack(*set);
    let words = if always_opens(&rack) {
        "always opens, until its place is retired"
    } else {
        "opens if at most f symbols are out of band; these numbers do not promise that"
    };
    println!(rt; "{name:<14}  {words}")
}

// A row of a table; a set below the line needs no neighbour.
fn print_row(rt: &HostRuntime, part: Part, name: &str, set: &Set) -> io::Result<()> {
    match part {
        Part::Numbers => print_numbers(rt, name, set),
        Part::Line => print_line(rt, name, set),
        Part::Parcels => print_parcels(rt, name, set),
        Part::Neighbour => if set.below_line() {
            Ok(())
        } else {
            print_neighbour(rt, name, set)
        },
    }
}

// A table of one set.
pub fn print_part(rt: &HostRuntime, part: Part, set: &Set) -> io::Result<()> {
    println!(rt; "{}", part.head())?;
    print_row(rt, part, "given", set)
}

// A table of the built-in sets.
pub fn print_table<E: From<io::Error> + From<SetFault>>(
    rt: &HostRuntime,
    part: Part,
) -> Result<(), E> {
    println!(rt; "{}", part.head())?;
    for listed in &LISTED {
        print_row(rt, part, listed.name, &listed.make()?)?;
    }
    Ok(())
}

// What the unlawful sets get.
pub fn print_refusals(rt: &HostRuntime) -> io::Result<()> {
    println!(rt; "\nWhat an unlawful set gets, here T with other numbers:")?;
    for listed in &UNLAWFUL {
        let name = listed.name;
        match listed.make() {
            Ok(_) => println!(rt; "{name:<33}made")?,
            Err(fault) => println!(rt; "{name:<33}{}", Told { why: fault })?,
        }
    }
    Ok(())
}

// The report on one set: its tables, and what being below the line would cost it.
pub fn print_report(rt: &HostRuntime, set: &Set) -> io::Result<()> {
    print_part(rt, Part::Numbers, set)?;
    println!(rt; "")?;
    print_part(rt, Part::Line, set)?;
    if !set.below_line() {
        println!(rt; "{COSTS}")?;
        print_part(rt, Part::Neighbour, set)?;
        println!(rt; "{NEIGHBOURS}")?;
    }
    println!(rt; "")?;
    print_part(rt, Part::Parcels, set)
}
