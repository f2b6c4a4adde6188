// Writing a rack file.
ghost use Rattle.std.specs.Prelude.{◌≡◌, length, Ok};
ghost use Rattle.params.specs.Limits.{most_checks};
ghost use Rattle.rackfile.specs.Format.{file_size, number_bytes, body_bytes, checksum_of, encoded, decoded, Whole};

use crate::bytes::write_words;
use crate::image::{Image, Numbers};
use crate::places::write_places;
use crate::{LETTERS_END, NUMBERS_END, PLACES_END, RACK_FILE_BYTES};
use shake::hash;

// What a rack file begins with.
pub(crate) const LETTERS: &[u8] = b"sealrack";

// The bytes of a checksum.
const CHECKSUM_BYTES: usize = 32;

// The label of the checksum's hash.
const CHECKSUM_LABEL: u8 = 0x52;

// Writes the numbers of a set: seven words, the block mark, and a word for each check.
fn write_numbers(numbers: &Numbers, out: &mut [u8])
    requires { length out.old ≡ 35 }
    ensures bytes { out.new ≡ number_bytes numbers.now }
    ensures whole { length numbers.now.lengths ≡ most_checks }
{
    let words = [
        numbers.n,
        numbers.h,
        numbers.qb,
        numbers.pb,
        numbers.tb,
        numbers.kappa,
        numbers.f,
    ];
    write_words(&words, &mut out[0..14]);
    out[14] = u8::from(numbers.block);
    write_words(&numbers.lengths, &mut out[15..35]);
}

// Writes all but the checksum.
fn write_body(image: &Image, out: &mut [u8])
    requires { length out.old ≡ 431 }
    ensures bytes { out.new ≡ body_bytes image.now }
    ensures whole { Whole image.now }
{
    out[0..LETTERS_END].copy_from_slice(LETTERS);
    write_numbers(&image.numbers, &mut out[LETTERS_END..NUMBERS_END]);
    write_places(&image.places, &mut out[NUMBERS_END..PLACES_END]);
}

// What shows damage to a body.
fn checksum(body: &[u8]) -> [u8; CHECKSUM_BYTES]
    ensures { result ≡ checksum_of body.now }
{
    let mut sum = [0u8; CHECKSUM_BYTES];
    hash(CHECKSUM_LABEL, &[body], &mut sum);
    sum
}

// Writes a rack file.
fn write_file(image: &Image, out: &mut [u8])
    requires { length out.old ≡ file_size }
    ensures bytes { out.new ≡ encoded image.now }
    ensures whole { Whole image.now }
{
    write_body(image, &mut out[0..PLACES_END]);
    let sum = checksum(&out[0..PLACES_END]);
    out[PLACES_END..RACK_FILE_BYTES].copy_from_slice(&sum);
}

/// The rack file of an image; it is read back as the same image.
pub fn encode(image: &Image) -> [u8; RACK_FILE_BYTES]
    ensures bytes { result ≡ encoded image.now }
    ensures read_back { decoded result ≡ Ok image.now }
{
    let mut out = [0u8; RACK_FILE_BYTES];
    write_file(image, &mut out);
    out
}
