// The names of the fields, and the line that tells a fault.
ghost use Rattle.std.specs.Prelude.{◌≡◌, Some};
ghost use Rattle.setfile.specs.Shown.{number_name, field_name, wrong_words, fault_line};

use crate::fault::{Fault, Wrong};
use crate::field::{Field, Number};
use std::fmt;

impl Number {
    // The name of a number in a set file.
    pub fn name(self) -> &'static str
        ensures { result.now ≡ number_name self }
    {
        match self {
            Number::RingSize => "n",
            Number::Weight => "h",
            Number::Qb => "qb",
            Number::Pb => "pb",
            Number::Tb => "tb",
            Number::Payload => "kappa",
            Number::Flips => "f",
        }
    }
}

impl Field {
    // The name of a field in a set file.
    pub fn name(self) -> &'static str
        ensures { result.now ≡ field_name self }
    {
        match self {
            Field::Scalar(number) => number.name(),
            Field::Lengths => "lengths",
            Field::Block => "block",
        }
    }
}

impl fmt::Display for Wrong {
    ghost output = { λ x. Some (wrong_words x) };

    fn fmt<W: fmt::Write>(&self, f: &mut fmt::Formatter<W>) -> fmt::Result {
        match self {
            Wrong::NoField => write!(f, "no field of a set stands here"),
            Wrong::NoNumber => write!(f, "a number is wanted here"),
            Wrong::TooLarge => write!(f, "a number is above 65535"),
            Wrong::NoMark => write!(f, "block is yes or no"),
            Wrong::Twice(field) => {
                let name = field.name();
                write!(f, "{name} stands twice")
            }
        }
    }
}

impl fmt::Display for Fault {
    ghost output = { λ x. Some (fault_line x) };

    fn fmt<W: fmt::Write>(&self, f: &mut fmt::Formatter<W>) -> fmt::Result {
        match self {
            Fault::Line(line, wrong) => write!(f, "line {line}: {wrong}"),
            Fault::Missing(number) => {
                let name = number.name();
                write!(f, "{name} is missing")
            }
        }
    }
}
