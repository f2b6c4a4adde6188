// The station's call.
ghost use Rattle.std.specs.Prelude.{◌≡◌, length};
ghost use Rattle.calls.specs.Areas.{zeros};
ghost use Rattle.calls.specs.Chains.{Answers};
ghost use Rattle.seal.specs.Seal.{both, sealed};
ghost use Rattle.keyseal.specs.Exported.{proposal_of, Exported};
ghost use Rattle.keyseal.specs.Origin.{book_of};

use crate::layout::Numbers;
use crate::made::make_set;
use crate::origin::bytes_from;
use crate::told::{refuse, tell};
use seal::seal;

/// Seals a message to a key: writes the parcel and the station's secret.
#[unsafe(no_mangle)]
pub extern "C" fn keyseal_seal(
    numbers: &Numbers,
    lengths: &[u16],
    tape: &[u8],
    taped: bool,
    key: &[u8],
    message: &[u8],
    parcel: &mut [u8],
    secret: &mut [u8],
    secret_area: &mut [u16],
    product_area: &mut [u16],
    refusal: &mut [u64; 4],
) -> u32
    ensures secret_wiped { secret_area.new ≡ zeros secret_area.old }
    ensures product_wiped { product_area.new ≡ zeros product_area.old }
    ensures answer { Exported (proposal_of numbers.now lengths.entry) result refusal.new
        (both parcel.new secret.new) (both parcel.old secret.old)
        (λ s. sealed (book_of tape.now taped) s (length parcel.old) (length secret.old) (length secret_area.old) (length product_area.old) key.now message.now) }
{
    match make_set(numbers, lengths) {
        Ok(set) => {
            let outcome = seal(
                &set,
                &mut bytes_from(tape, taped),
                key,
                message,
                parcel,
                secret,
                secret_area,
                product_area,
            );
            tell(outcome, refusal)
        }
        Err(fault) => refuse(fault, secret_area, product_area, refusal),
    }
}
