// Why bytes are no key, or no parcel.
ghost use Rattle.std.specs.Prelude.{◌≡◌, ◌+◌, ◌*◌, length, slice_index};
ghost use Rattle.params.specs.Sizes.{bytes_for};
ghost use Rattle.wire.specs.Faults.{fault_numbers, run_form};
ghost use Rattle.wire.specs.declared.fault.WireFault.TheVariants.{Fill};

use pack::{PackFault, check_fill};
use params::moduli::Moduli;
use ring::{Rounded, Symbol};

// A wrong length, with the length it had; a wrong kind byte, with the byte; a fill bit that is not zero.
#[derive(Clone, Copy, Debug, PartialEq, Eq)]
pub enum WireFault {
    Length(usize),
    Kind(u8),
    Fill,
}

impl WireFault {
    // The number of the refusal.
    pub fn number(self) -> u16
        ensures { result ≡ slice_index (fault_numbers self) 0 }
    {
        match self {
            WireFault::Length(_) => 14,
            WireFault::Kind(_) => 15,
            WireFault::Fill => 16,
        }
    }
}

impl From<PackFault> for WireFault {
    ghost from_gives = { λ _ fault. fault ≡ Fill };

    fn from(fault: PackFault) -> WireFault {
        match fault {
            PackFault::Fill => WireFault::Fill,
        }
    }
}

// Refuses a run of n coefficients and then m symbols in which a fill bit is not zero.
pub(crate) fn check_run(moduli: Moduli, n: usize, m: usize, run: &[u8]) -> Result<(), WireFault>
    requires { length run.now ≡ bytes_for (n * moduli.pb + m * moduli.tb) }
    ensures { result ≡ run_form (n * moduli.pb + m * moduli.tb) run.now }
{
    check_fill::<Rounded, Symbol>(moduli, n, m, run)?;
    Ok(())
}
