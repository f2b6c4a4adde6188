// The kit on files: sets, racks, keys, parcels and secrets; and what a parameter set promises by its numbers alone.
#![tactic(auto)]

mod commands;
mod files;
mod journey;
mod racks;
mod shown;
mod stop;
mod texts;

use crate::commands::{
    gauge_seeds, issue, make_rack, open, publish, read_raw, retire, seal_message,
};
use crate::files::read_bytes;
use crate::journey::run_journey;
use crate::racks::Site;
use crate::shown::{show_card, show_rack, show_set, show_sets};
use crate::stop::Stop;
use crate::texts::HELP;
use kit::new_source;
use source::{Source, Tape};
use std::env;
use std::process::ExitCode;
use std::rt::Env;

// The commands that expand seeds, with the source that they draw from.
fn expand<'a, S: Source + Drop>(
    rt: &HostRuntime,
    command: &str,
    words: &[&'a str],
    mut source: S,
) -> Result<(), Stop<'a>> {
    match (command, words) {
        ("issue", [path, place, coins]) => issue(
            rt,
            Site {
                path,
                place,
                source,
            },
            coins,
        ),
        ("publish", [path, place, key]) => publish(
            rt,
            Site {
                path,
                place,
                source,
            },
            key,
        ),
        ("open", [path, place, parcel, secret]) => open(
            rt,
            Site {
                path,
                place,
                source,
            },
            parcel,
            secret,
        ),
        ("seal", [set, key, message, parcel, secret]) => seal_message(
            rt,
            &mut source,
            set,
            key,
            message,
            parcel,
            secret,
        ),
        ("raw", [set, seed, parcel, raw]) => read_raw(rt, &mut source, set, seed, parcel, raw),
        ("gauge", [set, seeds]) => gauge_seeds(rt, &mut source, set, seeds),
        _ => Err(Stop::Usage),
    }
}

// Does what a command and its words ask.
fn obey<'a>(rt: &HostRuntime, command: &str, words: &[&'a str]) -> Result<(), Stop<'a>> {
    match (command, words) {
        ("help", []) => Ok(println!(rt; "{HELP}")?),
        ("sets", []) => show_sets(rt),
        ("set", [path]) => show_set(rt, path),
        ("card", [serial, path]) => show_card(rt, serial, path),
        ("new-rack", [set, rack]) => make_rack(rt, set, rack),
        ("show", [rack]) => show_rack(rt, rack),
        ("retire", [path, place]) => retire(
            rt,
            Site {
                path,
                place,
                source: new_source(),
            },
        ),
        (_, [option, path, rest @ ..]) if *option == "--tape" => {
            let bytes = read_bytes(rt, path)?;
            expand(rt, command, rest, Tape::new(bytes.as_slice()))
        }
        _ => expand(rt, command, words, new_source()),
    }
}

// The words of the command line after the program's own.
fn read_words(rt: &HostRuntime) -> Result<Vec<String>, Stop<'static>> {
    Ok(env::args(rt)?.skip(1).collect(rt.alloc())?)
}

fn run<'a>(rt: &HostRuntime, words: &'a [String]) -> Result<(), Stop<'a>> {
    let texts: Vec<&'a str> = words.iter().map(|word| word.as_str()).collect(rt.alloc())?;
    match texts.as_slice() {
        [] => run_journey(rt),
        [command, rest @ ..] => obey(rt, command, rest),
    }
}

// Tells what ended a run.
fn fail(rt: &HostRuntime, stop: Stop) -> ExitCode {
    let _ = eprintln!(rt; "{stop}");
    ExitCode::FAILURE
}

fn main(rt: HostRuntime) -> ExitCode {
    match read_words(&rt) {
        Ok(words) => match run(&rt, words.as_slice()) {
            Ok(()) => ExitCode::SUCCESS,
            Err(stop) => fail(&rt, stop),
        },
        Err(stop) => fail(&rt, stop),
    }
}
