// Comparing a received word with its checks, and deciding which payload bits are flipped. No branch and no index depends on its bits.
ghost use Rattle.std.specs.Prelude.{◌≡◌, ℕ, ◌+◌, ◌-◌, ◌*◌, ◌<◌, ◌≤◌, length, if◌then◌else◌, nat_le, slice_index};
ghost use Rattle.params.specs.Limits.{most_n, most_flips, most_checks, most_kappa};
ghost use Rattle.params.specs.Sums.{bit};
ghost use Rattle.code.specs.Words.{Bits, FirstBits, check_offset};
ghost use Rattle.code.specs.Correcting.{number, byte_of};
ghost use Rattle.code.specs.Compared.{Compared, Counted, decided_bit};

use crate::checks::add_payload;
use crate::walk::Check;
use params::code::Code;
use params::{MOST_KAPPA, MOST_N};

// The longest word: it has at most n symbols.
pub(crate) const LONGEST_WORD: usize = MOST_N as usize;

// The longest payload, in bits.
const LONGEST_PAYLOAD: usize = MOST_KAPPA as usize;

// A received word, compared: the payload as received, and for each check bit 1 if it differs from the one worked out, else 0. The room for
// the check bits is lent, so that no word is copied.
#[derive(Drop)]
pub(crate) struct ComparedWord<'a> {
    code: &'a Code,
    payload: &'a [u8],
    checks: &'a [u8],
    ghost whole: { length payload.now ≡ code.now.shape.kappa },
    ghost payload_bits: { FirstBits code.now.shape.kappa payload.now },
    ghost room: { length checks.now ≡ most_n },
    ghost check_bits: { FirstBits (check_offset code.now.shape (2 * code.now.shape.f)) checks.now },
}

impl<'a> ComparedWord<'a> {
    // Compares a received word.
    pub(crate) fn of(
        code: &'a Code,
        received: &'a [u8],
        room: &'a mut [u8; LONGEST_WORD],
    ) -> ComparedWord<'a>
        requires long { length received.now ≡ code.now.mu }
        requires bits { Bits received.now }
        ensures code { result.code.now ≡ code.now }
        ensures compared { Compared code.now.shape received.now result.payload.now result.checks.now }
    {
        let (payload, received_checks) = received.split_at(code.shape.kappa as usize);
        room[..received_checks.len()].copy_from_slice(received_checks);
        add_payload(code, payload, room);
        ComparedWord {
            code,
            payload,
            checks: room,
        }
    }

    // Adds the votes of all checks to counts that are 0.
    #[tactic(auto, using(params::proofs::Sums::sum_none, params::proofs::Sums::sum_more))]
    fn add_votes(&self, counts: &mut [u8])
        requires whole { length counts.old ≡ self.now.code.now.shape.kappa }
        requires clear { (k : ℕ) → k < self.now.code.now.shape.kappa → slice_index counts.old k ≡ 0 }
        ensures { Counted self.now.code.now.shape self.now.checks.now counts.new }
    {
        let mut from = 0;
        // Kept: as in add_payload, where a check begins goes along with its number.
        for j in 0..2 * self.code.shape.f as usize {
            Check::of(self.code, j, from).add_votes(self.checks, counts);
            from += self.code.shape.lengths[j] as usize;
        }
    }

    // Counts the votes.
    pub(crate) fn count_votes(&'a self) -> Votes<'a>
        ensures { result.word.now ≡ self.now }
    {
        let mut counts = [0; LONGEST_PAYLOAD];
        self.add_votes(&mut counts[..self.payload.len()]);
        Votes { word: self, counts }
    }
}

// A compared word with its votes: in how many checks the bit of each payload position differs.
#[derive(Drop)]
pub(crate) struct Votes<'a> {
    word: &'a ComparedWord<'a>,
    counts: [u8; LONGEST_PAYLOAD],
    ghost room: { length counts ≡ most_kappa },
    ghost counted: { Counted word.now.code.now.shape word.now.checks.now counts },
}

impl<'a> Votes<'a> {
    // Byte i of the corrected message.
    pub(crate) fn corrected_byte(&self, i: usize) -> u8
        requires { 8 * i + 8 ≤ self.now.word.now.code.now.shape.kappa }
        ensures { let word = self.now.word.now in result ≡ byte_of (decided_bit word.code.now.shape word.payload.now word.checks.now) i }
    {
        let bits = &self.word.payload[8 * i..8 * i + 8];
        let counts = &self.counts[8 * i..8 * i + 8];
        decided_byte(self.word.code.shape.f, bits, counts)
    }
}

// 1 if at least f + 1 checks differ, else 0: exactly then f less their count is below 0, which its highest bit shows.
fn outvoted(f: u16, differing: u8) -> u8
    requires few { f ≤ most_flips }
    requires counted { differing ≤ most_checks }
    ensures { result ≡ bit (nat_le (f + 1) differing) }
{
    (f.wrapping_sub(differing as u16) >> 15) as u8
}

// A received payload bit, flipped if at least f + 1 checks differ.
fn decided(f: u16, received: u8, differing: u8) -> u8
    requires small { received < 2 }
    requires few { f ≤ most_flips }
    requires counted { differing ≤ most_checks }
    ensures value { result ≡ (if nat_le (f + 1) differing then 1 - received else received) }
    ensures small { result < 2 }
{
    received ^ outvoted(f, differing)
}

// The byte of eight payload bits, as they are decided.
#[tactic(auto, using(crate::proofs::Numbers::number_none))]
fn decided_byte(f: u16, received: &[u8], differing: &[u8]) -> u8
    requires eight { (length received.now ≡ 8) × (length differing.now ≡ 8) }
    requires small { FirstBits 8 received.now }
    requires few { f ≤ most_flips }
    requires counted { (q : ℕ) → q < 8 → slice_index differing.now q ≤ most_checks }
    ensures { result ≡ number 8 (λ q. if nat_le (f + 1) (slice_index differing.now q) then 1 - slice_index received.now q else slice_index received.now q) }
{
    let mut byte = 0;
    for (bit, count) in received.iter().zip(differing) {
        byte = byte * 2 + decided(f, *bit, *count);
    }
    byte
}
