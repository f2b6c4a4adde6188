// Every pattern of at most two flips, over all messages of one byte.
ghost use Rattle.std.specs.Prelude.{◌≡◌, ◌<◌, length};
ghost use Rattle.code.specs.Words.{Bits};

use code::{correct, encode};
use params::MOST_N;
use params::code::Code;
use std::io;

// Room for every word.
const LONGEST_WORD: usize = MOST_N as usize;

// How many words were tried, and how many of them were mended.
#[derive(Clone, Copy, Default)]
struct Tally {
    tried: u32,
    mended: u32,
}

// A message of one byte and a word of symbols, which begins as its code word.
#[derive(Drop)]
struct Trial<'a> {
    code: &'a Code,
    message: u8,
    word: &'a mut [u8],
    ghost small: { code.now.shape.kappa ≡ 8 },
    ghost long: { length word.now ≡ code.now.mu },
    ghost bits: { Bits word.now },
}

impl<'a> Trial<'a> {
    // Begins with the code word of the message.
    fn new(code: &'a Code, message: u8, word: &'a mut [u8]) -> Trial<'a>
        requires small { code.now.shape.kappa ≡ 8 }
        requires long { length word.old ≡ code.now.mu }
    {
        encode(code, &[message], word);
        Trial {
            code,
            message,
            word,
        }
    }

    // Flips one symbol.
    fn flip(&mut self, at: usize)
        requires { at < length self.old.word.now }
        ensures { length self.new.word.now ≡ length self.old.word.now }
    {
        self.word[at] ^= 1;
    }

    // Tries whether the word corrects to the message.
    fn try_word(&self, tally: &mut Tally) {
        let mut found = [0u8; 1];
        correct(self.code, self.word, &mut found);
        tally.tried = tally.tried.saturating_add(1);
        tally.mended = tally
            .mended
            .saturating_add((found == [self.message]) as u32);
    }

    // Tries the word with one flip, at each place from `from` on.
    fn try_flips(&mut self, from: usize, tally: &mut Tally)
        ensures { length self.new.word.now ≡ length self.old.word.now }
    {
        // Kept: each turn flips one place and tries the whole word, so no element can be lent over it.
        for at in from..self.word.len() {
            self.flip(at);
            self.try_word(tally);
            self.flip(at);
        }
    }

    // Tries the word with two flips.
    fn try_pairs(&mut self, tally: &mut Tally) {
        // Kept: as in try_flips, each turn needs the whole word.
        for at in 0..self.word.len() {
            self.flip(at);
            self.try_flips(at + 1, tally);
            self.flip(at);
        }
    }
}

// Tries a message's code word as it is, with one flip and with two.
fn try_message(code: &Code, message: u8, word: &mut [u8], tallies: &mut [Tally; 3])
    requires small { code.now.shape.kappa ≡ 8 }
    requires long { length word.old ≡ code.now.mu }
{
    let mut trial = Trial::new(code, message, word);
    trial.try_word(&mut tallies[0]);
    trial.try_flips(0, &mut tallies[1]);
    trial.try_pairs(&mut tallies[2]);
}

// Tries all messages and reports, for each number of flips, how many words were mended.
pub fn run_patterns(rt: &HostRuntime, code: &Code) -> io::Result<()> {
    if code.shape.kappa != 8 {
        return println!(rt; "not a byte");
    }
    let mut buffer = [0u8; LONGEST_WORD];
    let word = &mut buffer[..code.mu as usize];
    let mut tallies = [Tally::default(); 3];
    for message in 0..=255u8 {
        try_message(code, message, word, &mut tallies);
    }
    println!(rt; "f {}, {} symbols", code.shape.f, code.mu)?;
    for (flips, tally) in ["no flip", "one flip", "two flips"].iter().zip(&tallies) {
        println!(rt; "  {flips}: {} of {} mended", tally.mended, tally.tried)?;
    }
    Ok(())
}
