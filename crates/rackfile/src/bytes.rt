// Words as bytes, two for each, the high byte first.
ghost use Rattle.std.specs.Prelude.{◌≡◌, ◌*◌, length};
ghost use Rattle.rackfile.specs.Words.{word_bytes, words_from};

use byteorder::{BigEndian, ByteOrder};

// Writes words, one after the other.
pub(crate) fn write_words(words: &[u16], out: &mut [u8])
    requires { length out.old ≡ 2 * length words.now }
    ensures { out.new ≡ word_bytes words.now }
{
    BigEndian::write_u16_into(words, out);
}

// Reads as many words as there is room for.
pub(crate) fn read_words(bytes: &[u8], out: &mut [u16])
    requires { length bytes.now ≡ 2 * length out.old }
    ensures { out.new ≡ words_from bytes.now }
{
    BigEndian::read_u16_into(bytes, out);
}
