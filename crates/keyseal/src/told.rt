// What was refused, told as a number and four words.
// Kept: C has no enums with values, so a refusal goes out as numbers.
ghost use Rattle.std.specs.Prelude.{◌≡◌};
ghost use Rattle.calls.specs.Areas.{zeros};
ghost use Rattle.params.specs.Rules.{refusal_numbers};
ghost use Rattle.keyseal.specs.Told.{Says, numbers_of};

use calls::Refusal;
use params::proposal::SetFault;

// The outcome of a call: its number is answered, and number and values go into the four words.
pub(crate) fn tell(outcome: Result<(), Refusal>, refusal: &mut [u64; 4]) -> u32
    ensures { Says result refusal.new (numbers_of outcome) }
{
    match outcome {
        Ok(()) => {
            *refusal = [0; 4];
            0
        }
        Err(why) => {
            let words = why.numbers().words();
            *refusal = words;
            words[0] as u32
        }
    }
}

// The same where no set could be made.
pub(crate) fn tell_fault(fault: SetFault, refusal: &mut [u64; 4]) -> u32
    ensures { Says result refusal.new (refusal_numbers fault) }
{
    let [number, first, second] = fault.numbers();
    *refusal = [number.into(), first.into(), second.into(), 0];
    number.into()
}

// The same for a call that has working areas: both are zeros then too.
pub(crate) fn refuse(
    fault: SetFault,
    secret_area: &mut [u16],
    product_area: &mut [u16],
    refusal: &mut [u64; 4],
) -> u32
    ensures secret_wiped { secret_area.new ≡ zeros secret_area.old }
    ensures product_wiped { product_area.new ≡ zeros product_area.old }
    ensures says { Says result refusal.new (refusal_numbers fault) }
{
    secret_area.fill(0);
    product_area.fill(0);
    tell_fault(fault, refusal)
}
