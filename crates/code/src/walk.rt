// The checks of a code, and the places of the payload in them. A place is found from the place before it rather than by a division.
ghost use Rattle.std.specs.Prelude.{◌≡◌, ℕ, ◌+◌, ◌*◌, ◌<◌, ◌≤◌, length, slice_index};
ghost use Rattle.params.specs.Checks.{check_length, in_blocks, place_of};
ghost use Rattle.code.specs.Words.{Agree, FirstBits, check_offset, added};

use params::code::Code;

// A check of a code: its number, and where its bits begin among the check bits of a word.
#[derive(Drop)]
pub(crate) struct Check<'a> {
    code: &'a Code,
    j: usize,
    from: usize,
    ghost known: { j < 2 * code.now.shape.f },
    ghost begins: { from ≡ check_offset code.now.shape j },
}

impl<'a> Check<'a> {
    // Check j of a code, which begins at place `from`. Those who go over the checks carry that place along.
    pub(crate) fn of(code: &'a Code, j: usize, from: usize) -> Check<'a>
        requires known { j < 2 * code.now.shape.f }
        requires begins { from ≡ check_offset code.now.shape j }
        ensures code { result.code.now ≡ code.now }
        ensures number { result.j ≡ j }
        ensures begins { result.from ≡ from }
    {
        Check { code, j, from }
    }

    // Whether the check goes by blocks.
    fn goes_by_blocks(&self) -> bool
        ensures { result ≡ in_blocks self.now.code.now.shape self.now.j }
    {
        self.code.shape.block && self.j == 0
    }

    // The place of position k + 1, from that of position k. Only a check by blocks divides.
    #[tactic(auto, using(crate::proofs::Places::place_wraps, crate::proofs::Places::place_steps, params::proofs::Places::place_inside))]
    fn next_place(&self, k: usize, place: usize) -> usize
        requires inside { k < self.now.code.now.shape.kappa }
        requires at { place ≡ place_of self.now.code.now.shape self.now.j k }
        ensures { result ≡ place_of self.now.code.now.shape self.now.j (k + 1) }
    {
        let long = self.code.shape.lengths[self.j] as usize;
        if self.goes_by_blocks() {
            return (k + 1) / (self.code.shape.kappa as usize / long);
        }
        if place + 1 == long { 0 } else { place + 1 }
    }

    // Adds a payload to the bits of the check.
    #[tactic(auto, using(crate::proofs::Places::bit_inside, crate::proofs::Steps::tally_none))]
    pub(crate) fn add_payload(&self, payload: &[u8], checks: &mut [u8])
        requires whole { length payload.now ≡ self.now.code.now.shape.kappa }
        requires payload { FirstBits self.now.code.now.shape.kappa payload.now }
        requires room { let s = self.now.code.now.shape in check_offset s (2 * s.f) ≤ length checks.old }
        requires check { (l : ℕ) → l < check_length self.now.code.now.shape self.now.j → slice_index checks.old (self.now.from + l) < 2 }
        ensures before { Agree self.now.from checks.new checks.old }
        ensures after { (p : ℕ) → self.now.from + check_length self.now.code.now.shape self.now.j ≤ p → slice_index checks.new p ≡ slice_index checks.old p }
        ensures check { let s = self.now.code.now.shape in (l : ℕ) → l < check_length s self.now.j → slice_index checks.new (self.now.from + l) ≡ added s payload.now checks.old self.now.j l }
    {
        let mut place = self.code.place(self.j, 0);
        for (k, bit) in payload.iter().enumerate() {
            checks[self.from + place] ^= *bit;
            place = self.next_place(k, place);
        }
    }

    // Counts, for each payload position, whether its bit differs in the check.
    #[tactic(auto, using(crate::proofs::Places::bit_inside))]
    pub(crate) fn add_votes(&self, checks: &[u8], votes: &mut [u8])
        requires room { let s = self.now.code.now.shape in check_offset s (2 * s.f) ≤ length checks.now }
        requires bits { let s = self.now.code.now.shape in FirstBits (check_offset s (2 * s.f)) checks.now }
        requires whole { length votes.old ≡ self.now.code.now.shape.kappa }
        requires few { (k : ℕ) → k < self.now.code.now.shape.kappa → slice_index votes.old k ≤ self.now.j }
        ensures { let s = self.now.code.now.shape in (k : ℕ) → k < s.kappa → slice_index votes.new k ≡ slice_index votes.old k + slice_index checks.now (self.now.from + place_of s self.now.j k) }
    {
        let mut place = self.code.place(self.j, 0);
        for (k, count) in votes.iter_mut().enumerate() {
            *count += checks[self.from + place];
            place = self.next_place(k, place);
        }
    }
}
