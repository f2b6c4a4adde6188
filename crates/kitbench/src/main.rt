// The calls of the kit on fixed inputs, for bench/kit.py; bench/scheme.c does the same in C and takes the same words.
// `CALL SET COUNT` makes one call so many times and prints a checksum; no words run every call a few times for each set.
#![tactic(auto)]

mod pair;
mod runs;

use crate::pair::Pair;
use crate::runs::LISTED;
use anyhow::anyhow;
use params::set::Set;
use shake::Absorbing;
use std::env;

// The runs of each set where no words are given.
const RUNS: u32 = 4;

// One call so many times.
fn repeat<F: FnMut(&mut Pair, u32) -> anyhow::Result<()>>(
    pair: &mut Pair,
    count: u32,
    mut call: F,
) -> anyhow::Result<()>
    requires { F.IsAlwaysCallable call }
{
    for run in 0..count {
        call(pair, run)?;
    }
    Ok(())
}

// Makes the call of a name so many times, and takes up what the last of them wrote; `all` is every call, and all that they wrote.
fn make_calls(pair: &mut Pair, sum: &mut Absorbing, call: &str, count: u32) -> anyhow::Result<()> {
    match call {
        "all" => repeat(pair, count, |pair, run| pair.run_all(run, sum))?,
        "publish" => {
            repeat(pair, count, |pair, _| pair.publish())?;
            sum.absorb(pair.key.as_slice());
        }
        "seal" => {
            repeat(pair, count, |pair, run| pair.seal_next(run))?;
            sum.absorb(pair.parcel.as_slice());
            sum.absorb(&pair.secret);
        }
        "open" => {
            repeat(pair, count, |pair, _| pair.open())?;
            sum.absorb(&pair.secret);
        }
        "gauge" => {
            repeat(pair, count, |pair, run| pair.gauge(run))?;
            pair.absorb_noise(sum);
        }
        _ => return Err(anyhow!("no such call")),
    }
    Ok(())
}

// The calls of a name with a set, and their checksum.
fn show_calls(
    rt: &HostRuntime,
    call: &str,
    name: &str,
    set: Set,
    count: u32,
) -> anyhow::Result<()> {
    let mut pair = Pair::new(rt.alloc(), set)?;
    let mut sum = Absorbing::new();
    pair.prepare(0)?;
    make_calls(&mut pair, &mut sum, call, count)?;
    let mut digest = [0u8; 16];
    sum.finish().squeeze(&mut digest);
    print!(rt; "{call} {name} {count} ")?;
    for byte in digest {
        print!(rt; "{byte:02x}")?;
    }
    println!(rt)?;
    Ok(())
}

fn find_set(name: &str) -> anyhow::Result<Set> {
    let listed = LISTED
        .iter()
        .find(|listed| listed.name == name)
        .ok_or_else(|| anyhow!("no such set"))?;
    listed.make().map_err(|_| anyhow!("the set is not lawful"))
}

fn run(rt: &HostRuntime) -> anyhow::Result<()> {
    let mut words = env::args(rt)?.skip(1);
    let Some(call) = words.next() else {
        for listed in &LISTED {
            show_calls(rt, "all", listed.name, find_set(listed.name)?, RUNS)?;
        }
        return Ok(());
    };
    match (words.next(), words.next()) {
        (Some(name), Some(count)) => show_calls(
            rt,
            call.as_str(),
            name.as_str(),
            find_set(name.as_str())?,
            count.parse::<u32>()?,
        ),
        _ => Err(anyhow!("usage: kitbench [all|publish|seal|open|gauge SET COUNT]")),
    }
}

fn main(rt: HostRuntime) -> anyhow::Result<()> {
    run(&rt)
}
