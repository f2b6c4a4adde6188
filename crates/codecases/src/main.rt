// Runs the correcting code: every pattern of at most two flips over two small codes, and words of the code for 256 bits.
#![tactic(auto)]

mod patterns;
mod words;
mod worked;

use params::code::Code;
use params::proposal::Proposal;
use params::set::Set;
use patterns::run_patterns;
use std::io;
use words::show_words;

// One flip is mended: 8 payload bits and checks of 3 and 4.
const SMALL: Proposal<'static> = Proposal {
    n: 16,
    h: 2,
    qb: 9,
    pb: 6,
    tb: 3,
    kappa: 8,
    f: 1,
    block: false,
    lengths: &[3, 4],
};

// Two flips are mended: 8 payload bits and checks of 3, 4, 5 and 7.
const DOUBLE: Proposal<'static> = Proposal {
    n: 28,
    h: 2,
    qb: 9,
    pb: 6,
    tb: 3,
    kappa: 8,
    f: 2,
    block: false,
    lengths: &[3, 4, 5, 7],
};

// Five flips are mended: 256 payload bits, ten checks, the first by blocks.
const LARGE: Proposal<'static> = Proposal {
    n: 1170,
    h: 222,
    qb: 13,
    pb: 9,
    tb: 5,
    kappa: 256,
    f: 5,
    block: true,
    lengths: &[16, 16, 17, 31, 19, 29, 23, 25, 27, 37],
};

// Runs cases over the code of a set.
fn run_cases<F: FnOnce(&Code) -> io::Result<()>>(
    rt: &HostRuntime,
    proposal: &Proposal,
    cases: F,
) -> io::Result<()>
    requires { F.IsAlwaysCallable cases }
{
    let Ok(set) = Set::make(proposal) else {
        return println!(rt; "no set");
    };
    cases(&set.code)
}

fn main(rt: HostRuntime) -> io::Result<()> {
    for proposal in [SMALL, DOUBLE] {
        run_cases(&rt, &proposal, |code| run_patterns(&rt, code))?;
    }
    run_cases(&rt, &LARGE, |code| show_words(&rt, code))
}
