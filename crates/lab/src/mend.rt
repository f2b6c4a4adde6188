// Correcting raw bits.
ghost use Rattle.std.specs.Prelude.{◌≡◌, ◌↔◌, length, IsOk, MatchResult};
ghost use Rattle.code.specs.Correcting.{corrected_message};
ghost use Rattle.lab.specs.Lab.{Correctable};
ghost use Rattle.lab.specs.Uncorrected.{Uncorrected};

use code::correct;
use params::set::Set;

/// Why raw bits are not corrected: there are not μ, with how many there are; the message has no room of κ/8 bytes, with the room it has; or
/// a byte is neither 0 nor 1, with the first such place.
#[derive(Clone, Copy, Debug, PartialEq, Eq)]
pub enum RawFault {
    Length(usize),
    Room(usize),
    Bit(usize),
}

// Refuses what cannot be corrected.
fn check_raw(set: &Set, raw: &[u8], room: usize) -> Result<(), RawFault>
    ensures { MatchResult result (λ _. Correctable set.now raw.now room) (λ e. Uncorrected set.now raw.now room e) }
{
    if raw.len() != set.code.mu as usize {
        return Err(RawFault::Length(raw.len()));
    }
    if room != set.code.shape.kappa as usize / 8 {
        return Err(RawFault::Room(room));
    }
    match raw.iter().position(|bit| *bit > 1) {
        Some(place) => Err(RawFault::Bit(place)),
        None => Ok(()),
    }
}

/// Writes the message that raw bits correct to; refuses, and leaves the message as it is, where there are not μ bytes of 0 or 1, or the
/// message has no room of κ/8 bytes.
pub fn correct_raw(set: &Set, raw: &[u8], message: &mut [u8]) -> Result<(), RawFault>
    ensures taken { IsOk result ↔ Correctable set.now raw.now (length message.old) }
    ensures cases { MatchResult result
        (λ _. message.new ≡ corrected_message set.now.code.shape raw.now)
        (λ e. Uncorrected set.now raw.now (length message.old) e × (message.new ≡ message.old)) }
{
    check_raw(set, raw, message.len())?;
    correct(&set.code, raw, message);
    Ok(())
}
