// What is wrong with a rack file.

/// Why bytes are no rack file: they have not its length, they do not begin as one, or they are otherwise not as they were written.
#[derive(Clone, Copy, Debug, PartialEq, Eq)]
pub enum RackFault {
    Length(usize),
    NoRack,
    Damaged,
}
