// What ends a run with status 1, and the line that tells it.
use calls::Refusal as Denial;
use params::proposal::SetFault;
use rackfile::RackFault;
use setfile::fault::Fault;
use std::alloc::AllocError;
use std::io;
use thiserror::Error;
use words::Told;

#[derive(Debug, Drop, Error)]
pub enum Stop<'a> {
    // A set that is not lawful.
    #[error("{}", Told {why: *.0})]
    Refused(#[from] SetFault),
    // A call that said no.
    #[error("{}", Told {why: *.0})]
    Denied(#[from] Denial),
    // A file that states no set.
    #[error("{0}: {1}")]
    BadSet(&'a str, Fault),
    // A file that holds no rack.
    #[error("{0}: {1}")]
    BadRack(&'a str, RackFault),
    // A file that cannot be read or written.
    #[error("{0}: {1}")]
    NoFile(&'a str, io::Error),
    // An output for which no file beside it can be made.
    #[error("{0}.tmp: {1}")]
    NoneBeside(&'a str, io::Error),
    // Something that is no plain file stands where an output is to be written.
    #[error("{0}: not a plain file, so nothing is written there")]
    NotPlain(&'a str),
    // A name that is given for an output and for something else.
    #[error("{0}: an output needs a name that stands nowhere else in the command")]
    SameName(&'a str),
    // A word that is no number of a place.
    #[error("{0}: not the number of a place")]
    NoPlace(&'a str),
    // Words that are no command.
    #[error("sealkit: no such command; try sealkit help")]
    Usage,
    // An argument that cannot be read, or a text that cannot be written.
    #[error("sealkit: {0}")]
    Io(#[from] io::Error),
    // No memory.
    #[error("sealkit: no memory")]
    Memory(#[from(alloc)] AllocError),
}
