// A lawful code.
ghost use Rattle.std.specs.Prelude.{◌≡◌, ◌*◌, ◌%◌, ◌≤◌, length};
ghost use Rattle.params.specs.Limits.{most_n, most_kappa, most_flips, most_checks};
ghost use Rattle.params.specs.Checks.{LengthsFit, MarkFits, CodeRule, symbol_count};

use crate::shape::Shape;

// The numbers of a code and its symbol count μ. Whoever holds one has the rules on codes and the code rule.
#[derive(Clone, Copy)]
pub struct Code {
    pub shape: Shape,
    pub mu: u16,
    ghost table: { length shape.lengths ≡ most_checks },
    ghost low: { 8 ≤ shape.kappa },
    ghost high: { shape.kappa ≤ most_kappa },
    ghost bytes: { shape.kappa % 8 ≡ 0 },
    ghost few: { shape.f ≤ most_flips },
    ghost lengths: { LengthsFit shape },
    ghost mark: { MarkFits shape },
    ghost count: { mu ≡ symbol_count shape },
    ghost short: { mu ≤ most_n },
    ghost apart: { CodeRule shape },
}
