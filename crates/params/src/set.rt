// A lawful parameter set.
ghost use Rattle.std.specs.Prelude.{◌≡◌, ◌%◌, ◌≤◌};
ghost use Rattle.params.specs.Limits.{most_n};

use crate::code::Code;
use crate::moduli::Moduli;

// A set: n coefficients, secrets of h signs, the moduli and the code. Whoever holds one has all its rules.
#[derive(Clone, Copy)]
pub struct Set {
    pub n: u16,
    pub h: u16,
    pub moduli: Moduli,
    pub code: Code,
    ghost low: { 8 ≤ n },
    ghost high: { n ≤ most_n },
    ghost even: { n % 2 ≡ 0 },
    ghost some: { 2 ≤ h },
    ghost sparse: { h ≤ n },
    ghost paired: { h % 2 ≡ 0 },
    ghost room: { code.mu ≤ n },
}
