// For a set, the cheapest set like it that is below the line: what being below it costs in bytes.
#![tactic(auto)]

ghost use Rattle.std.specs.Prelude.{◌≡◌, ℕ, ◌+◌, ◌≤◌, MatchOption};
ghost use Rattle.params.specs.Limits.{word_bits};
ghost use Rattle.params.specs.Sizes.{BelowLine};
ghost use Rattle.neighbour.specs.Cost.{rounded_off, Alike, cost, Room, Beats, Good, Finds, NoNeighbour, Cheapest};

use params::WORD_BITS;
use params::moduli::Moduli;
use params::set::Set;

// The bytes of a key and a parcel together.
pub fn cost_of(set: &Set) -> usize
    ensures { result ≡ cost set.now }
{
    set.key_len() + set.parcel_len()
}

// How many bits rounding takes off.
fn rounded_bits(set: &Set) -> u32
    ensures { result ≡ rounded_off set.now }
{
    set.moduli.qb - set.moduli.pb
}

// The set with these exponents and as many bits rounded off; the search below tries lawful exponents alone.
fn with_exponents(set: &Set, pb: u32, tb: u32) -> Set
    requires { Room set.now pb tb }
    ensures alike { Alike set.now result }
    ensures pb { result.moduli.pb ≡ pb }
    ensures tb { result.moduli.tb ≡ tb }
{
    let moduli = Moduli {
        qb: pb + rounded_bits(set),
        pb,
        tb,
    };
    let code = set.code;
    Set {
        n: set.n,
        h: set.h,
        moduli,
        code,
    }
}

// The better of the best so far and another: below the line, and cheaper. At the same cost the earlier stays.
fn better(best: Option<Set>, other: Set) -> Option<Set>
    ensures good { (s : Set) → Good s best → Alike s other → Good s result }
    ensures keeps { (c : ℕ) → Beats best c → Beats result c }
    ensures takes { BelowLine other → Beats result (cost other) }
{
    if !other.below_line() {
        return best;
    }
    best.filter(|held| cost_of(held) <= cost_of(&other))
        .or(Some(other))
}

// The best so far and all sets of one pb.
fn best_at(set: &Set, pb: u32, best: Option<Set>) -> Option<Set>
    requires low { rounded_off set.now ≤ pb }
    requires high { pb + rounded_off set.now ≤ word_bits }
    ensures good { Good set.now best → Good set.now result }
    ensures keeps { (c : ℕ) → Beats best c → Beats result c }
    ensures takes { Finds set.now result (λ m. m.pb ≡ pb) }
{
    let rounded = rounded_bits(set);
    let mut best = best;
    for tb in 1..pb + 1 - rounded {
        best = better(best, with_exponents(set, pb, tb));
    }
    best
}

// The set with the same n, h and code and as many bits rounded off that is below the line at the least cost: of several the one
// with the smallest pb, and then the smallest tb. None if no such set is below the line.
pub fn neighbour(set: &Set) -> Option<Set>
    ensures { MatchOption result (NoNeighbour set.now) (Cheapest set.now) }
{
    let rounded = rounded_bits(set);
    let mut best = None;
    for pb in rounded + 1..WORD_BITS as u32 + 1 - rounded {
        best = best_at(set, pb, best);
    }
    best
}
