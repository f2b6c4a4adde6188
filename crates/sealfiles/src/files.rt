// Reading files, and writing them whole.
use crate::stop::Stop;
use std::fs::File;
use std::io::Write;
use std::rt::Files;
use std::{fs, io};

pub fn read_bytes<'a>(rt: &HostRuntime, path: &'a str) -> Result<Vec<u8>, Stop<'a>> {
    fs::read(rt, path).map_err(|e| Stop::NoFile(path, e))
}

// An output that is to be written: where, what, and the file beside it that is written first.
#[derive(Drop)]
pub struct Output<'a, 'b> {
    path: &'a str,
    bytes: &'b [u8],
    beside: String,
}

impl<'a, 'b> Output<'a, 'b> {
    // An output, if nothing stands at its path or a plain file that it replaces.
    pub fn new(
        rt: &HostRuntime,
        path: &'a str,
        bytes: &'b [u8],
    ) -> Result<Output<'a, 'b>, Stop<'a>> {
        if fs::symlink_metadata(rt, path).is_ok_and(|there| !there.is_file()) {
            return Err(Stop::NotPlain(path));
        }
        let beside = format!(in rt.alloc(); "{path}.tmp")?;
        Ok(Output {
            path,
            bytes,
            beside,
        })
    }

    // Writes the bytes to a file, down to the disk.
    fn fill(&self, mut file: File) -> io::Result<()> {
        file.write_all(self.bytes)?;
        file.sync_all()
    }

    // Makes and fills the file beside the output. A file that is there already is nobody's to overwrite.
    fn prepare(&self, rt: &HostRuntime) -> Result<(), Stop<'a>> {
        let file = File::create_new(rt, self.beside.as_str()).map_err(|e| Stop::NoneBeside(
            self.path, e,
        ))?;
        self.fill(file).map_err(|e| self.give_up(rt, e))
    }

    // Takes the file beside the output away again.
    fn discard(&self, rt: &HostRuntime) {
        let _ = fs::remove_file(rt, self.beside.as_str());
    }

    // The same, after something went wrong with the output.
    fn give_up(&self, rt: &HostRuntime, e: io::Error) -> Stop<'a> {
        self.discard(rt);
        Stop::NoFile(self.path, e)
    }

    // Puts the file beside the output in its place.
    fn settle(&self, rt: &HostRuntime) -> Result<(), Stop<'a>> {
        fs::rename(rt, self.beside.as_str(), self.path).map_err(|e| self.give_up(rt, e))
    }
}

// Writes one output whole, or leaves what stands there as it was.
pub fn write_one<'a>(rt: &HostRuntime, path: &'a str, bytes: &[u8]) -> Result<(), Stop<'a>> {
    let output = Output::new(rt, path, bytes)?;
    output.prepare(rt)?;
    output.settle(rt)
}

// Writes two outputs whole. Both are on the disk before either takes its place.
pub fn write_two<'a>(
    rt: &HostRuntime,
    first: &Output<'a, '_>,
    second: &Output<'a, '_>,
) -> Result<(), Stop<'a>> {
    first.prepare(rt)?;
    second.prepare(rt).inspect_err(|_| first.discard(rt))?;
    first.settle(rt).inspect_err(|_| second.discard(rt))?;
    second.settle(rt)
}

// Refuses an output whose name stands among the other words of the command.
pub fn check_name<'a>(name: &'a str, others: &[&str]) -> Result<(), Stop<'a>> {
    if others.contains(&name) {
        return Err(Stop::SameName(name));
    }
    Ok(())
}
