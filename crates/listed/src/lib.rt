// Sets by their names: the built-in sets, and two that are unlawful.
#![tactic(auto)]

ghost use Rattle.std.specs.Prelude.{MatchResult};
ghost use Rattle.params.specs.Rules.{Lawful, Told};
ghost use Rattle.params.specs.Made.{Holds};

use params::proposal::{Proposal, SetFault};
use params::set::Set;

// A set by its name.
#[derive(Clone, Copy)]
pub struct Listed {
    pub name: &'static str,
    pub proposal: Proposal<'static>,
}

impl Listed {
    // The set, if its numbers are lawful.
    pub fn make(&self) -> Result<Set, SetFault>
        ensures { MatchResult result (λ s. Lawful self.now.proposal × Holds s self.now.proposal) (λ e. Told e self.now.proposal × (Lawful self.now.proposal → ⊥)) }
    {
        Set::make(&self.proposal)
    }
}

// The small set T, and six of Round5's ring sets by their published names.
pub const LISTED: [Listed; 7] = [
    Listed {
        name: "T",
        proposal: Proposal {
            n: 10,
            h: 2,
            qb: 8,
            pb: 6,
            tb: 3,
            kappa: 8,
            f: 0,
            block: false,
            lengths: &[],
        },
    },
    Listed {
        name: "R5ND_1CCA_0d",
        proposal: Proposal {
            n: 586,
            h: 182,
            qb: 13,
            pb: 9,
            tb: 4,
            kappa: 128,
            f: 0,
            block: false,
            lengths: &[],
        },
    },
    Listed {
        name: "R5ND_3CCA_0d",
        proposal: Proposal {
            n: 852,
            h: 212,
            qb: 12,
            pb: 9,
            tb: 5,
            kappa: 192,
            f: 0,
            block: false,
            lengths: &[],
        },
    },
    Listed {
        name: "R5ND_5CCA_0d",
        proposal: Proposal {
            n: 1170,
            h: 222,
            qb: 13,
            pb: 9,
            tb: 5,
            kappa: 256,
            f: 0,
            block: false,
            lengths: &[],
        },
    },
    Listed {
        name: "R5ND_1CCA_5d",
        proposal: Proposal {
            n: 508,
            h: 136,
            qb: 10,
            pb: 7,
            tb: 4,
            kappa: 128,
            f: 5,
            block: true,
            lengths: &[16, 11, 13, 16, 17, 19, 21, 23, 25, 29],
        },
    },
    Listed {
        name: "R5ND_3CCA_5d",
        proposal: Proposal {
            n: 756,
            h: 242,
            qb: 12,
            pb: 8,
            tb: 3,
            kappa: 192,
            f: 5,
            block: true,
            lengths: &[24, 13, 16, 17, 19, 21, 23, 25, 29, 31],
        },
    },
    Listed {
        name: "R5ND_5CCA_5d",
        proposal: Proposal {
            n: 946,
            h: 388,
            qb: 11,
            pb: 8,
            tb: 5,
            kappa: 256,
            f: 5,
            block: true,
            lengths: &[16, 16, 17, 19, 21, 23, 25, 29, 31, 37],
        },
    },
];

// Two sets that are not made, named by where they differ from T.
pub const UNLAWFUL: [Listed; 2] = [
    Listed {
        name: "n = 1202",
        proposal: Proposal {
            n: 1202,
            h: 2,
            qb: 8,
            pb: 6,
            tb: 3,
            kappa: 8,
            f: 0,
            block: false,
            lengths: &[],
        },
    },
    Listed {
        name: "n = 16, f = 1, lengths 2 and 4",
        proposal: Proposal {
            n: 16,
            h: 2,
            qb: 8,
            pb: 6,
            tb: 3,
            kappa: 8,
            f: 1,
            block: false,
            lengths: &[2, 4],
        },
    },
];
