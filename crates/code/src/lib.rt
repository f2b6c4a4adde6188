// The correcting code of a set: encoding a message, and correcting a received word. A word has one byte, 0 or 1, for each symbol.
#![tactic(auto)]

ghost use Rattle.std.specs.Prelude.{◌≡◌, ℕ, ◌*◌, ◌/◌, ◌<◌, length, slice_index};
ghost use Rattle.code.specs.Words.{Bits, message_bit, code_word};
ghost use Rattle.code.specs.Correcting.{corrected_message, Mends};

use params::code::Code;

mod checks;
mod decide;
mod walk;

use checks::add_payload;
use decide::{ComparedWord, LONGEST_WORD};

// Writes the bits of a message, one symbol each.
fn write_payload(message: &[u8], payload: &mut [u8])
    requires { length payload.old ≡ 8 * length message.now }
    ensures { (k : ℕ) → k < length payload.old → slice_index payload.new k ≡ message_bit message.now k }
{
    for (k, bit) in payload.iter_mut().enumerate() {
        *bit = (message[k / 8] >> (7 - k % 8)) & 1;
    }
}

// Writes the code word of a message. The calls of the kit lend a message and a word of these lengths.
pub fn encode(code: &Code, message: &[u8], word: &mut [u8])
    requires whole { length message.now ≡ code.now.shape.kappa / 8 }
    requires room { length word.old ≡ code.now.mu }
    ensures { word.new ≡ code_word code.now.shape message.now }
{
    let kappa = code.shape.kappa as usize;
    let (payload, checks) = word.split_at_mut(kappa);
    write_payload(message, payload);
    checks.fill(0);
    add_payload(code, payload, checks);
}

// Writes the message that a received word corrects to. The calls of the kit lend a word of bits that they read from symbols, and a
// message of this length.
pub fn correct(code: &Code, received: &[u8], message: &mut [u8])
    requires long { length received.now ≡ code.now.mu }
    requires bits { Bits received.now }
    requires whole { length message.old ≡ code.now.shape.kappa / 8 }
    ensures value { message.new ≡ corrected_message code.now.shape received.now }
    ensures mends { Mends code.now.shape received.now message.new }
{
    let mut room = [0; LONGEST_WORD];
    let word = ComparedWord::of(code, received, &mut room);
    let votes = word.count_votes();
    for (i, byte) in message.iter_mut().enumerate() {
        *byte = votes.corrected_byte(i);
    }
}
