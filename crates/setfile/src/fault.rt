// What is wrong with a set file.
use crate::field::{Field, Number};

// What is wrong with a line.
#[derive(Clone, Copy, Debug, PartialEq, Eq)]
pub enum Wrong {
    // It does not begin with a field's name and an equals sign.
    NoField,
    // A number is wanted where none stands.
    NoNumber,
    // A number is above the largest.
    TooLarge,
    // Neither yes nor no.
    NoMark,
    // An earlier line states the field.
    Twice(Field),
}

// A line that is wrong, by its number from 1, or a number that no line states.
#[derive(Clone, Copy, Debug, PartialEq, Eq)]
pub enum Fault {
    Line(usize, Wrong),
    Missing(Number),
}
