// The sampler: expands a seed to the public polynomial or to a secret, by values drawn from a source.
#![tactic(auto)]

ghost use Rattle.std.specs.Prelude.{◌≡◌, ◌+◌, ◌%◌, ◌^◌, ◌<◌, ◌≤◌, [], ◌∷◌, length, take, Ok, Err, MatchResult, Decides};
ghost use Rattle.sampler.specs.Values.{values};
ghost use Rattle.sampler.specs.Positions.{marks_room, kept, Marked};
ghost use Rattle.sampler.specs.Expanded.{public_label, secret_label, label_number, expanded_public, expanded_secret};
ghost use Rattle.sampler.specs.Facts.{Reduced, Picked, Shortfall};

use params::MOST_N;
use source::{Source, SourceFault};

/// What a seed is expanded to. Its number is the label that a source is started with.
#[derive(Clone, Copy, PartialEq, Eq, Debug)]
pub enum Label {
    Public = 1,
    Secret = 2,
}

// The marks of the occupancy table, one for each position there can be.
const MARKS: usize = MOST_N as usize;

// How many values there are: two bytes make one below this.
const VALUES: usize = 65536;

/// The source ran short. Its fault stands whole beside the label, the entry being made, counted from 0, and the bytes
/// drawn since the start.
#[derive(Clone, Copy, PartialEq, Eq, Debug)]
pub struct SamplerFault {
    pub source: SourceFault,
    // Kept: a byte, as a source is started with, since a fault may be told of any label.
    pub label: u8,
    pub entry: u16,
    pub bytes: u64,
}

// The next value: one draw of two bytes, the low byte first. A refusal tells of the entry being made and of the bytes
// drawn before.
fn next_value<S: Source>(
    source: &mut S,
    label: Label,
    entry: u16,
    bytes: u64,
) -> Result<u16, SamplerFault>
    ensures book { S.book source.new ≡ S.book source.old }
    ensures cases { MatchResult result (λ v. values (S.rest source.old) ≡ v ∷ values (S.rest source.new)) (λ e. (values (S.rest source.old) ≡ []) × (e ≡ record { source = SourceFault.Short; label = label_number label; entry = entry; bytes = bytes })) }
{
    let mut pair = [0u8; 2];
    source.draw(&mut pair).map_err(|source| SamplerFault {
        source,
        label: label as u8,
        entry,
        bytes,
    })?;
    Ok(u16::from_le_bytes(pair))
}

// The value modulo 2^qb.
fn cut(value: u16, qb: u32) -> u16
    requires { qb ≤ 16 }
    ensures { result ≡ value % 2 ^ qb }
{
    (value as u32 % (1 << qb)) as u16
}

// The positions chosen, at the front of those that are lent, and a table that marks them.
#[derive(Drop)]
struct Chosen<'a> {
    table: [u8; MARKS],
    positions: &'a mut [u16],
    count: usize,
    ghost size: { length table ≡ marks_room },
    ghost within: { count ≤ length positions.now },
    ghost marked: { Marked table (take count positions.now) },
}

impl<'a> Chosen<'a> {
    // None is chosen yet.
    fn none(positions: &'a mut [u16]) -> Chosen<'a>
        ensures lent { result.positions.ghost_name ≡ positions.entry.ghost_name }
        ensures same { result.positions.now ≡ positions.old }
        ensures none { result.count ≡ 0 }
    {
        Chosen {
            table: [0; MARKS],
            positions,
            count: 0,
        }
    }

    // Whether there is room for one more.
    fn has_room(&self) -> bool
        ensures { Decides result (self.now.count < length self.now.positions.now) }
    {
        self.count < self.positions.len()
    }

    // Chooses the position of a value, unless the value is too large or the position is marked.
    fn keep(&mut self, n: u16, value: u16)
        requires range { (8 ≤ n) × (n ≤ marks_room) }
        requires room { self.old.count < length self.old.positions.now }
        ensures lent { self.new.positions.ghost_name ≡ self.old.positions.ghost_name }
        ensures room { length self.new.positions.now ≡ length self.old.positions.now }
        ensures kept { take self.new.count self.new.positions.now ≡ kept n (take self.old.count self.old.positions.now) value }
        ensures more { (self.old.count ≤ self.new.count) × (self.new.count ≤ self.old.count + 1) }
    {
        let share = VALUES / n as usize;
        let value = value as usize;
        if value < share * n as usize {
            let position = value / share;
            if self.table[position] == 0 {
                self.positions[self.count] = position as u16;
                self.table[position] = 1;
                self.count += 1;
            }
        }
    }
}

/// Expands a seed to the public polynomial: as many coefficients modulo 2^qb as `out` has room for. Nothing is told of
/// `out` after a refusal. The caller has qb and n from a set, which keeps both bounds.
pub fn expand_public<S: Source>(
    source: &mut S,
    seed: &[u8; 32],
    qb: u32,
    out: &mut [u16],
) -> Result<(), SamplerFault>
    requires width { qb ≤ 16 }
    requires range { length out.old ≤ marks_room }
    ensures book { S.book source.new ≡ S.book source.old }
    ensures cases { MatchResult result (λ _. expanded_public qb (length out.old) (S.book source.old public_label seed.now) ≡ Ok out.new) (λ e. expanded_public qb (length out.old) (S.book source.old public_label seed.now) ≡ Err e) }
    ensures facts { MatchResult result (λ _. Reduced qb (length out.old) out.new) (λ e. Shortfall public_label (length out.old) (S.book source.old public_label seed.now) e) }
{
    source.start(Label::Public as u8, seed);
    for (index, coefficient) in out.iter_mut().enumerate() {
        let value = next_value(source, Label::Public, index as u16, 2 * index as u64)?;
        *coefficient = cut(value, qb);
    }
    Ok(())
}

/// Expands a seed to a secret of n coefficients: as many positions as there is room for, in the order drawn. Nothing is
/// told of `positions` after a refusal. The caller has n and h from a set, which keeps both bounds.
pub fn expand_secret<S: Source>(
    source: &mut S,
    seed: &[u8; 32],
    n: u16,
    positions: &mut [u16],
) -> Result<(), SamplerFault>
    requires range { (8 ≤ n) × (n ≤ marks_room) }
    requires room { length positions.old ≤ n }
    ensures book { S.book source.new ≡ S.book source.old }
    ensures cases { MatchResult result (λ _. expanded_secret n (length positions.old) (S.book source.old secret_label seed.now) ≡ Ok positions.new) (λ e. expanded_secret n (length positions.old) (S.book source.old secret_label seed.now) ≡ Err e) }
    ensures facts { MatchResult result (λ _. Picked n (length positions.old) positions.new) (λ e. Shortfall secret_label (length positions.old) (S.book source.old secret_label seed.now) e) }
{
    source.start(Label::Secret as u8, seed);
    let mut chosen = Chosen::none(positions);
    let mut bytes = 0;
    while chosen.has_room() {
        let value = next_value(source, Label::Secret, chosen.count as u16, bytes)?;
        bytes += 2;
        chosen.keep(n, value);
    }
    Ok(())
}

#[cfg(test)]
mod tests {
    use super::*;
    use source::Tape;
    use std::test::Fail;

    const SEED: [u8; 32] = [0; 32];

    // With n = 10 the value FFFA hex is the first that is dropped, and the second 0 finds its position marked.
    #[test]
    fn secret_of_worked_bytes(rt: HostRuntime) -> Result<(), Fail> {
        let bytes = [0xFA, 0xFF, 0x00, 0x00, 0x00, 0x00, 0xF9, 0xFF];
        let mut positions = [0u16; 2];
        expand_secret(&mut Tape::new(&bytes), &SEED, 10, &mut positions)?;
        assert_eq!(rt; positions[0], 0);
        assert_eq!(rt; positions[1], 9);
        Ok(())
    }

    #[test]
    fn secret_of_too_few_bytes(rt: HostRuntime) {
        let bytes = [0xFA, 0xFF, 0x00, 0x00, 0x00, 0x00];
        let mut positions = [0u16; 2];
        let fault = SamplerFault {
            source: SourceFault::Short,
            label: 2,
            entry: 1,
            bytes: 6,
        };
        assert_eq!(rt;
            expand_secret(&mut Tape::new(&bytes), &SEED, 10, &mut positions),
            Err(fault)
        );
    }
}
