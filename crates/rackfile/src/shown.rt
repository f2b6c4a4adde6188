// The line that tells why bytes are no rack file.
ghost use Rattle.std.specs.Prelude.{Some};
ghost use Rattle.rackfile.specs.Shown.{fault_line};

use crate::fault::RackFault;
use std::fmt;

impl fmt::Display for RackFault {
    ghost output = { λ x. Some (fault_line x) };

    fn fmt<W: fmt::Write>(&self, f: &mut fmt::Formatter<W>) -> fmt::Result {
        match self {
            RackFault::Length(long) => write!(f, "a rack file has 463 bytes, this has {long}"),
            RackFault::NoRack => write!(f, "not a rack file"),
            RackFault::Damaged => write!(f, "a damaged rack file"),
        }
    }
}
