// The sets that are run.
use listed::Listed;
use params::proposal::Proposal;

// The small set T, R5ND_5CCA_5d, and the neighbour of R5ND_5CCA_0d that is below the line; then, not timed, a set with so much noise that most
// parcels need mending and a few cannot be mended, the set with the smallest moduli, and the one with the most of all but the code.
pub const LISTED: [Listed; 6] = [
    Listed {
        name: "small",
        proposal: Proposal {
            n: 10,
            h: 2,
            qb: 8,
            pb: 6,
            tb: 3,
            kappa: 8,
            f: 0,
            block: false,
            lengths: &[],
        },
    },
    Listed {
        name: "coded",
        proposal: Proposal {
            n: 946,
            h: 388,
            qb: 11,
            pb: 8,
            tb: 5,
            kappa: 256,
            f: 5,
            block: true,
            lengths: &[16, 16, 17, 19, 21, 23, 25, 29, 31, 37],
        },
    },
    Listed {
        name: "wide",
        proposal: Proposal {
            n: 1170,
            h: 222,
            qb: 14,
            pb: 10,
            tb: 4,
            kappa: 256,
            f: 0,
            block: false,
            lengths: &[],
        },
    },
    Listed {
        name: "noisy",
        proposal: Proposal {
            n: 946,
            h: 700,
            qb: 11,
            pb: 7,
            tb: 3,
            kappa: 256,
            f: 5,
            block: true,
            lengths: &[16, 16, 17, 19, 21, 23, 25, 29, 31, 37],
        },
    },
    Listed {
        name: "least",
        proposal: Proposal {
            n: 8,
            h: 8,
            qb: 3,
            pb: 2,
            tb: 1,
            kappa: 8,
            f: 0,
            block: false,
            lengths: &[],
        },
    },
    Listed {
        name: "most",
        proposal: Proposal {
            n: 1200,
            h: 1200,
            qb: 16,
            pb: 15,
            tb: 14,
            kappa: 256,
            f: 0,
            block: false,
            lengths: &[],
        },
    },
];
