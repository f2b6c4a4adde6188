// What ends a run with status 1, and the line that tells it.
use params::proposal::SetFault;
use setfile::fault::Fault;
use std::io;
use thiserror::Error;
use words::Told;

// Why no set was read from a file.
#[derive(Debug, Drop, Error)]
pub enum BadFile {
    // It cannot be read.
    #[error("{0}")]
    Unread(#[from] io::Error),
    // It states no set.
    #[error("{0}")]
    NoSet(#[from] Fault),
}

#[derive(Debug, Drop, Error)]
pub enum Stop {
    // A set that is not lawful.
    #[error("{}", Told {why: *.0})]
    Refused(#[from] SetFault),
    // A file that gave no set.
    #[error("{0}: {1}")]
    File(String, BadFile),
    // Words that are no command.
    #[error("sealkit: no such command; try sealkit help")]
    Usage,
    // An argument that cannot be read, or a text that cannot be written.
    #[error("sealkit: {0}")]
    Io(#[from] io::Error),
}
