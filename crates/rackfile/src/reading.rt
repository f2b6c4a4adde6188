// Reading a rack file.
ghost use Rattle.std.specs.Prelude.{◌≡◌, length, MatchResult};
ghost use Rattle.rackfile.specs.Format.{file_size, encoded, numbers_from, image_from, confirmed, decoded, NeverWritten};

use crate::bytes::read_words;
use crate::fault::RackFault;
use crate::image::{Image, Numbers};
use crate::places::read_places;
use crate::writing::{LETTERS, encode};
use crate::{LETTERS_END, NUMBERS_END, PLACES_END, RACK_FILE_BYTES};
use params::MOST_CHECKS;
use params::proposal::ProposalOf;

// Reads the numbers of a set; the block mark is set unless its byte is 0.
fn read_numbers(bytes: &[u8]) -> Numbers
    requires { length bytes.now ≡ 35 }
    ensures { result ≡ numbers_from bytes.now }
{
    let mut words = [0u16; 7];
    let mut lengths = [0u16; MOST_CHECKS];
    read_words(&bytes[0..14], &mut words);
    read_words(&bytes[15..35], &mut lengths);
    ProposalOf {
        n: words[0],
        h: words[1],
        qb: words[2],
        pb: words[3],
        tb: words[4],
        kappa: words[5],
        f: words[6],
        block: bytes[14] != 0,
        lengths,
    }
}

// Reads what stands in a file, whatever that is.
fn read_image(bytes: &[u8]) -> Image
    requires { length bytes.now ≡ file_size }
    ensures { result ≡ image_from bytes.now }
{
    Image {
        numbers: read_numbers(&bytes[LETTERS_END..NUMBERS_END]),
        places: read_places(&bytes[NUMBERS_END..PLACES_END]),
    }
}

// An image, if these are the bytes that are written for it.
fn confirm(image: Image, bytes: &[u8]) -> Result<Image, RackFault>
    ensures { result ≡ confirmed image bytes.now }
{
    if encode(&image).as_slice() == bytes {
        Ok(image)
    } else {
        Err(RackFault::Damaged)
    }
}

// Reads a file, and refuses what is not as it is written.
fn read_file(bytes: &[u8]) -> Result<Image, RackFault>
    ensures { result ≡ decoded bytes.now }
{
    if bytes.len() != RACK_FILE_BYTES {
        return Err(RackFault::Length(bytes.len()));
    }
    if !bytes.starts_with(LETTERS) {
        return Err(RackFault::NoRack);
    }
    confirm(read_image(bytes), bytes)
}

/// The image in a rack file: whatever is read was written so, and what is refused was not.
pub fn decode(bytes: &[u8]) -> Result<Image, RackFault>
    ensures value { result ≡ decoded bytes.now }
    ensures exact { MatchResult result (λ x. encoded x ≡ bytes.now) (λ _. NeverWritten bytes.now) }
{
    read_file(bytes)
}
