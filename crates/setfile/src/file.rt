// Reading a set file.
ghost use Rattle.std.specs.Prelude.{◌≡◌, Ok, Err, MatchResult};
ghost use Rattle.setfile.specs.Scan.{parts};
ghost use Rattle.setfile.specs.Meaning.{field_of, value_of, line_of, nothing, put_row, put_lines, draft_of, set_of};

use crate::draft::Draft;
use crate::fault::{Fault, Wrong};
use crate::field::{Entry, FIELDS, Field, Lengths, Number};
use crate::found::Found;
use crate::scan::{cut_at, is_blank, is_word};
use crate::values::{read_lengths, read_mark, read_number};

// The field of a name.
fn find_field(name: &[u8]) -> Option<Field>
    ensures { result ≡ field_of name.now }
{
    FIELDS
        .iter()
        .copied()
        .find(|field| is_word(name, field.name().as_bytes()))
}

// What a value says of a field.
fn read_value(field: Field, text: &[u8]) -> Result<Entry, Wrong>
    ensures { result ≡ value_of field text.now }
{
    match field {
        Field::Scalar(which) => read_number(text).map(|value| Entry::Value(which, value)),
        Field::Lengths => read_lengths(text).map(Entry::List),
        Field::Block => read_mark(text).map(Entry::Mark),
    }
}

// What a line says, its comment left out; nothing, where it is blank.
fn read_line(row: &[u8]) -> Result<Option<Entry>, Wrong>
    ensures { result ≡ line_of row.now }
{
    let (bare, _) = cut_at(row, b'#');
    if is_blank(bare) {
        return Ok(None);
    }
    let (name, Some(text)) = cut_at(bare, b'=') else {
        return Err(Wrong::NoField);
    };
    let field = find_field(name).ok_or(Wrong::NoField)?;
    read_value(field, text).map(Some)
}

// Takes what one more line states.
fn put_line(found: &mut Found, row: &[u8]) -> Result<(), Wrong>
    ensures { MatchResult result (λ _. put_row found.old row.now ≡ Ok found.new) (λ wrong. put_row found.old row.now ≡ Err wrong) }
{
    match read_line(row)? {
        Some(entry) => found.put(entry),
        None => Ok(()),
    }
}

// What all lines state; a fault names its line.
fn read_lines(text: &[u8]) -> Result<Found, Fault>
    ensures { result ≡ put_lines 1 nothing (parts 10 text.now) }
{
    let mut found = Found::nothing();
    for (i, row) in text.split(|x| *x == b'\n').enumerate() {
        put_line(&mut found, row).map_err(|wrong| Fault::Line(i + 1, wrong))?;
    }
    Ok(found)
}

// The draft, if all numbers are stated.
fn complete(found: &Found) -> Result<Draft, Fault>
    ensures { result ≡ draft_of found.now }
{
    Ok(Draft {
        n: found.number(Number::RingSize)?,
        h: found.number(Number::Weight)?,
        qb: found.number(Number::Qb)?,
        pb: found.number(Number::Pb)?,
        tb: found.number(Number::Tb)?,
        kappa: found.number(Number::Payload)?,
        f: found.number(Number::Flips)?,
        block: found.block.unwrap_or(false),
        lengths: found.lengths.unwrap_or(Lengths::none()),
    })
}

// The set that a text states, or the first line that is wrong, or a number that is missing.
pub fn read_set(text: &[u8]) -> Result<Draft, Fault>
    ensures { result ≡ set_of text.now }
{
    complete(&read_lines(text)?)
}
