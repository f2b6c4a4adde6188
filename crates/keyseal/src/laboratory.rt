// The laboratory's calls.
ghost use Rattle.std.specs.Prelude.{◌≡◌, length};
ghost use Rattle.calls.specs.Areas.{zeros};
ghost use Rattle.calls.specs.Chains.{Answers};
ghost use Rattle.lab.specs.Lab.{raw_read};
ghost use Rattle.keyseal.specs.Exported.{proposal_of, Exported};
ghost use Rattle.keyseal.specs.Gauged.{counted, gauged_and_counted};
ghost use Rattle.keyseal.specs.Origin.{book_of};

use crate::layout::Numbers;
use crate::made::make_set;
use crate::origin::bytes_from;
use crate::told::{refuse, tell};
use calls::Refusal;
use lab::{gauge, raw_read};
use params::set::Set;
use source::Source;

/// The raw bits that the secret of a seed reads from a parcel.
#[unsafe(no_mangle)]
pub extern "C" fn keyseal_raw_read(
    numbers: &Numbers,
    lengths: &[u16],
    tape: &[u8],
    taped: bool,
    parcel: &[u8],
    seed: &[u8],
    raw: &mut [u8],
    secret_area: &mut [u16],
    product_area: &mut [u16],
    refusal: &mut [u64; 4],
) -> u32
    ensures secret_wiped { secret_area.new ≡ zeros secret_area.old }
    ensures product_wiped { product_area.new ≡ zeros product_area.old }
    ensures answer { Exported (proposal_of numbers.now lengths.entry) result refusal.new raw.new raw.old
        (λ s. raw_read (book_of tape.now taped) s (length raw.old) (length secret_area.old) (length product_area.old) parcel.now seed.now) }
{
    match make_set(numbers, lengths) {
        Ok(set) => {
            let outcome = raw_read(
                &set,
                &mut bytes_from(tape, taped),
                parcel,
                seed,
                raw,
                secret_area,
                product_area,
            );
            tell(outcome, refusal)
        }
        Err(fault) => refuse(fault, secret_area, product_area, refusal),
    }
}

// Gauge, on a set that was made; the count goes out too.
fn gauge_on<S: Source>(
    set: &Set,
    source: &mut S,
    seeds: &[u8],
    noise: &mut [i32],
    out_of_band: &mut u32,
    secret_area: &mut [u16],
    product_area: &mut [u16],
) -> Result<(), Refusal>
    ensures secret_wiped { secret_area.new ≡ zeros secret_area.old }
    ensures product_wiped { product_area.new ≡ zeros product_area.old }
    ensures cases { Answers result
        (gauged_and_counted (S.book source.old) set.now (length noise.old) (length secret_area.old) (length product_area.old) seeds.now)
        (counted noise.new out_of_band.new) (counted noise.old out_of_band.old) }
{
    let count = gauge(set, source, seeds, noise, secret_area, product_area)?;
    *out_of_band = count as u32;
    Ok(())
}

/// The noise of each symbol, and how many are out of band.
#[unsafe(no_mangle)]
pub extern "C" fn keyseal_gauge(
    numbers: &Numbers,
    lengths: &[u16],
    tape: &[u8],
    taped: bool,
    seeds: &[u8],
    noise: &mut [i32],
    out_of_band: &mut u32,
    secret_area: &mut [u16],
    product_area: &mut [u16],
    refusal: &mut [u64; 4],
) -> u32
    ensures secret_wiped { secret_area.new ≡ zeros secret_area.old }
    ensures product_wiped { product_area.new ≡ zeros product_area.old }
    ensures answer { Exported (proposal_of numbers.now lengths.entry) result refusal.new
        (counted noise.new out_of_band.new) (counted noise.old out_of_band.old)
        (λ s. gauged_and_counted (book_of tape.now taped) s (length noise.old) (length secret_area.old) (length product_area.old) seeds.now) }
{
    match make_set(numbers, lengths) {
        Ok(set) => {
            let outcome = gauge_on(
                &set,
                &mut bytes_from(tape, taped),
                seeds,
                noise,
                out_of_band,
                secret_area,
                product_area,
            );
            tell(outcome, refusal)
        }
        Err(fault) => refuse(fault, secret_area, product_area, refusal),
    }
}
