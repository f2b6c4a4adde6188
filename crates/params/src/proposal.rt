// What is proposed for a set, and why it may be refused.
ghost use Rattle.std.specs.Prelude.{◌≡◌};
ghost use Rattle.params.specs.Proposed.{with_lengths};

// The numbers of a set as a user states them, of which no rule is promised, and its check lengths, however they are held.
#[derive(Clone, Copy)]
pub struct ProposalOf<L> {
    pub n: u16,
    pub h: u16,
    pub qb: u16,
    pub pb: u16,
    pub tb: u16,
    pub kappa: u16,
    pub f: u16,
    pub block: bool,
    pub lengths: L,
}

// A proposal of check lengths that are lent, as sets are made from.
pub type Proposal<'a> = ProposalOf<&'a [u16]>;

impl<L> ProposalOf<L> {
    // The same numbers with other check lengths.
    pub fn with_lengths<M>(&self, lengths: M) -> ProposalOf<M>
        ensures { result ≡ with_lengths self.now lengths }
    {
        ProposalOf {
            n: self.n,
            h: self.h,
            qb: self.qb,
            pb: self.pb,
            tb: self.tb,
            kappa: self.kappa,
            f: self.f,
            block: self.block,
            lengths,
        }
    }
}

// The nine rules of a set, numbered in their order.
#[derive(Clone, Copy, Debug, PartialEq, Eq)]
pub enum Rule {
    RingSize = 1,
    Weight,
    Exponents,
    Balance,
    Payload,
    Flips,
    Lengths,
    BlockMark,
    SymbolCount,
}

// Why no set was made: the lowest rule broken, or two payload positions that share two checks.
#[derive(Clone, Copy, Debug, PartialEq, Eq)]
pub enum SetFault {
    Broken(Rule),
    Shared(u16, u16),
}
