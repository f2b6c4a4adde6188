// The three moduli, by their exponents.
ghost use Rattle.std.specs.Prelude.{◌+◌, ◌*◌, ◌<◌, ◌≤◌};
ghost use Rattle.params.specs.Limits.{word_bits};

// q = 2^qb before rounding, p = 2^pb after it, t = 2^tb for symbols. Whoever holds one has the rules on exponents.
#[derive(Clone, Copy)]
pub struct Moduli {
    pub qb: u32,
    pub pb: u32,
    pub tb: u32,
    ghost some: { 1 ≤ tb },
    ghost symbols: { tb < pb },
    ghost rounds: { pb < qb },
    ghost words: { qb ≤ word_bits },
    ghost balance: { tb + qb ≤ 2 * pb },
}
