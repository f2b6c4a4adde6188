// Working out checks, by adding a payload to check bits modulo 2: bits that were 0 become the parities, and the bits of a received
// word become 1 where they differ from the parities and 0 where they do not.
ghost use Rattle.std.specs.Prelude.{◌≡◌, ◌*◌, ◌≤◌, length};
ghost use Rattle.code.specs.Words.{FirstBits, check_offset, PayloadAdded};

use crate::walk::Check;
use params::code::Code;

// Adds a payload to the bits of all checks.
pub(crate) fn add_payload(code: &Code, payload: &[u8], checks: &mut [u8])
    requires whole { length payload.now ≡ code.now.shape.kappa }
    requires payload { FirstBits code.now.shape.kappa payload.now }
    requires room { check_offset code.now.shape (2 * code.now.shape.f) ≤ length checks.old }
    requires bits { FirstBits (check_offset code.now.shape (2 * code.now.shape.f)) checks.old }
    ensures { PayloadAdded code.now.shape (2 * code.now.shape.f) payload.now checks.old checks.new }
{
    let mut from = 0;
    // Kept: where a check begins goes along with its number, since adding up the lengths before each check takes time.
    for j in 0..2 * code.shape.f as usize {
        Check::of(code, j, from).add_payload(payload, checks);
        from += code.shape.lengths[j] as usize;
    }
}
