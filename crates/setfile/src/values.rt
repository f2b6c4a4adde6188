// Reading the values: numbers, lists of numbers, yes and no.
ghost use Rattle.std.specs.Prelude.{◌≡◌};
ghost use Rattle.setfile.specs.Scan.{blank};
ghost use Rattle.setfile.specs.Values.{ended, digits_of, number_of, lengths_of, mark_of};

use crate::fault::Wrong;
use crate::field::Lengths;
use crate::scan::{is_blank, is_word, skip};

// The number, if nothing but spaces follows it.
fn end_number(sum: u16, rest: &[u8]) -> Result<u16, Wrong>
    ensures { result ≡ ended sum (blank rest.now) }
{
    if is_blank(rest) {
        Ok(sum)
    } else {
        Err(Wrong::NoNumber)
    }
}

// The number that the digits give, up to the first byte that is none.
fn read_digits(s: &[u8]) -> Result<u16, Wrong>
    ensures { result ≡ digits_of 0 s.now }
{
    let mut sum = 0u16;
    for (i, x) in s.iter().enumerate() {
        if !x.is_ascii_digit() {
            return end_number(sum, &s[i..]);
        }
        let next = u32::from(sum) * 10 + u32::from(*x - b'0');
        sum = u16::try_from(next).map_err(|_| Wrong::TooLarge)?;
    }
    Ok(sum)
}

// A number, with free spaces around it.
pub(crate) fn read_number(s: &[u8]) -> Result<u16, Wrong>
    ensures { result ≡ number_of s.now }
{
    match skip(s) {
        digits @ [x, ..] if x.is_ascii_digit() => read_digits(digits),
        _ => Err(Wrong::NoNumber),
    }
}

// Check lengths: numbers with commas between them, or nothing.
pub(crate) fn read_lengths(s: &[u8]) -> Result<Lengths, Wrong>
    ensures { result ≡ lengths_of s.now }
{
    let mut lengths = Lengths::none();
    if is_blank(s) {
        return Ok(lengths);
    }
    for part in s.split(|x| *x == b',') {
        lengths.push(read_number(part)?);
    }
    Ok(lengths)
}

// The block mark: yes or no.
pub(crate) fn read_mark(s: &[u8]) -> Result<bool, Wrong>
    ensures { result ≡ mark_of s.now }
{
    if is_word(s, b"yes") {
        Ok(true)
    } else if is_word(s, b"no") {
        Ok(false)
    } else {
        Err(Wrong::NoMark)
    }
}
