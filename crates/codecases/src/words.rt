// A table of code words, in hexadecimal of their bits.
use code::encode;
use params::MOST_N;
use params::code::Code;
use std::io;

// Room for every word.
const LONGEST_WORD: usize = MOST_N as usize;

// The bytes of a message of 256 bits.
const MESSAGE_BYTES: usize = 32;

// Prints a message and its code word.
fn print_word(rt: &HostRuntime, code: &Code, message: &[u8; MESSAGE_BYTES]) -> io::Result<()> {
    if code.shape.kappa != 256 {
        return println!(rt; "not 256 bits");
    }
    let mu = code.mu as usize;
    let mut word = [0u8; LONGEST_WORD];
    let word = &mut word[..mu];
    encode(code, message, word);
    for byte in message {
        print!(rt; "{byte:02x}")?;
    }
    print!(rt; " ")?;
    for symbols in word.chunks_exact(4) {
        let digit = symbols.iter().fold(0u8, |digit, bit| digit << 1 | bit & 1);
        print!(rt; "{digit:x}")?;
    }
    println!(rt; "")
}

// The message whose bit k alone is 1.
fn single_bit(k: u8) -> [u8; MESSAGE_BYTES] {
    let mut message = [0u8; MESSAGE_BYTES];
    message[k as usize / 8] = 128 >> (k % 8);
    message
}

// The message 00, 01, 02 and so on.
fn counting() -> [u8; MESSAGE_BYTES] {
    let mut message = [0u8; MESSAGE_BYTES];
    for (i, byte) in message.iter_mut().enumerate() {
        *byte = i as u8;
    }
    message
}

// Prints the words of a few messages.
pub fn show_words(rt: &HostRuntime, code: &Code) -> io::Result<()> {
    println!(rt; "f {}, {} symbols", code.shape.f, code.mu)?;
    print_word(rt, code, &[0u8; MESSAGE_BYTES])?;
    print_word(rt, code, &[255u8; MESSAGE_BYTES])?;
    print_word(rt, code, &[165u8; MESSAGE_BYTES])?;
    print_word(rt, code, &counting())?;
    for k in [0u8, 1, 7, 8, 15, 16, 37, 128, 254, 255] {
        print_word(rt, code, &single_bit(k))?;
    }
    Ok(())
}
