// The till's calls.
ghost use Rattle.std.specs.Prelude.{◌≡◌, length, if◌then◌else◌, nat_eq};
ghost use Rattle.calls.specs.Areas.{zeros};
ghost use Rattle.calls.specs.Chains.{Answers};
ghost use Rattle.rack.specs.Calls.{issued, published, opened, retired};
ghost use Rattle.keyseal.specs.Exported.{proposal_of, Exported, Tells};
ghost use Rattle.keyseal.specs.Origin.{book_of};
ghost use Rattle.keyseal.specs.Places.{records, coins_alone, with_coins, emptied};
ghost use Rattle.keyseal.specs.Told.{if_done};

use crate::layout::{Numbers, Place};
use crate::made::make_set;
use crate::origin::bytes_from;
use crate::places::{alone, keep, records_of, retire};
use crate::told::{refuse, tell};
use calls::Refusal;
use params::set::Set;
use rack::{PLACES, Rack};
use source::Source;

// A rack with the caller's places.
fn rack_from<S: Source>(set: Set, source: S, places: &[Place; PLACES]) -> Rack<S>
    ensures numbers { result.set ≡ set }
    ensures source { result.source ≡ source }
    ensures places { result.places ≡ records places.now }
{
    Rack::resume(set, source, records_of(places))
}

/// Writes the key of the coins at a place.
#[unsafe(no_mangle)]
pub extern "C" fn keyseal_publish(
    numbers: &Numbers,
    lengths: &[u16],
    tape: &[u8],
    taped: bool,
    places: &[Place; PLACES],
    place: u8,
    key: &mut [u8],
    secret_area: &mut [u16],
    product_area: &mut [u16],
    refusal: &mut [u64; 4],
) -> u32
    ensures secret_wiped { secret_area.new ≡ zeros secret_area.old }
    ensures product_wiped { product_area.new ≡ zeros product_area.old }
    ensures answer { Exported (proposal_of numbers.now lengths.entry) result refusal.new key.new key.old
        (λ s. published (book_of tape.now taped) s (records places.now) place (length key.old) (length secret_area.old) (length product_area.old)) }
{
    match make_set(numbers, lengths) {
        Ok(set) => {
            let mut rack = rack_from(set, bytes_from(tape, taped), places);
            let outcome = rack.publish(place, key, secret_area, product_area);
            tell(outcome, refusal)
        }
        Err(fault) => refuse(fault, secret_area, product_area, refusal),
    }
}

/// Writes the secret that the coins at a place make of a parcel.
#[unsafe(no_mangle)]
pub extern "C" fn keyseal_open(
    numbers: &Numbers,
    lengths: &[u16],
    tape: &[u8],
    taped: bool,
    places: &[Place; PLACES],
    place: u8,
    parcel: &[u8],
    secret: &mut [u8],
    secret_area: &mut [u16],
    product_area: &mut [u16],
    refusal: &mut [u64; 4],
) -> u32
    ensures secret_wiped { secret_area.new ≡ zeros secret_area.old }
    ensures product_wiped { product_area.new ≡ zeros product_area.old }
    ensures answer { Exported (proposal_of numbers.now lengths.entry) result refusal.new secret.new secret.old
        (λ s. opened (book_of tape.now taped) s (records places.now) place (length secret.old) (length secret_area.old) (length product_area.old) parcel.now) }
{
    match make_set(numbers, lengths) {
        Ok(set) => {
            let mut rack = rack_from(set, bytes_from(tape, taped), places);
            let outcome = rack.open(place, parcel, secret, secret_area, product_area);
            tell(outcome, refusal)
        }
        Err(fault) => refuse(fault, secret_area, product_area, refusal),
    }
}

// Issue, on a set that was made.
fn issue_on<S: Source + Drop>(
    set: Set,
    source: S,
    places: &mut [Place; PLACES],
    place: u8,
    coins: &[u8],
    secret_area: &mut [u16],
    product_area: &mut [u16],
) -> Result<(), Refusal>
    ensures secret_wiped { secret_area.new ≡ zeros secret_area.old }
    ensures product_wiped { product_area.new ≡ zeros product_area.old }
    ensures cases { Answers result
        (issued (S.book source) set (records places.old) place (length secret_area.old) (length product_area.old) coins.now)
        (records places.new) (records places.old) }
    ensures bytes { places.new ≡ if_done result (with_coins places.old place coins.now) places.old }
{
    let mut rack = rack_from(set, source, places);
    rack.issue(place, coins, secret_area, product_area)?;
    keep(places, place, coins);
    Ok(())
}

/// Keeps coins at an empty place, if both their seeds expand.
#[unsafe(no_mangle)]
pub extern "C" fn keyseal_issue(
    numbers: &Numbers,
    lengths: &[u16],
    tape: &[u8],
    taped: bool,
    places: &mut [Place; PLACES],
    place: u8,
    coins: &[u8],
    secret_area: &mut [u16],
    product_area: &mut [u16],
    refusal: &mut [u64; 4],
) -> u32
    ensures secret_wiped { secret_area.new ≡ zeros secret_area.old }
    ensures product_wiped { product_area.new ≡ zeros product_area.old }
    ensures answer { Exported (proposal_of numbers.now lengths.entry) result refusal.new (records places.new) (records places.old)
        (λ s. issued (book_of tape.now taped) s (records places.old) place (length secret_area.old) (length product_area.old) coins.now) }
    ensures bytes { places.new ≡ (if nat_eq result 0 then with_coins places.old place coins.now else places.old) }
{
    match make_set(numbers, lengths) {
        Ok(set) => {
            let outcome = issue_on(
                set,
                bytes_from(tape, taped),
                places,
                place,
                coins,
                secret_area,
                product_area,
            );
            tell(outcome, refusal)
        }
        Err(fault) => refuse(fault, secret_area, product_area, refusal),
    }
}

/// Empties a place.
#[unsafe(no_mangle)]
pub extern "C" fn keyseal_retire(
    places: &mut [Place; PLACES],
    place: u8,
    refusal: &mut [u64; 4],
) -> u32
    ensures answer { Tells result refusal.new (records places.new) (records places.old) (retired (records places.old) place) }
    ensures bytes { places.new ≡ (if nat_eq result 0 then emptied places.old place else places.old) }
{
    let outcome = retire(places, place);
    tell(outcome, refusal)
}

/// Writes the key of coins that the caller keeps, as if they stood at place 0 of a rack.
#[unsafe(no_mangle)]
pub extern "C" fn keyseal_publish_coins(
    numbers: &Numbers,
    lengths: &[u16],
    tape: &[u8],
    taped: bool,
    coins: &[u8; 96],
    key: &mut [u8],
    secret_area: &mut [u16],
    product_area: &mut [u16],
    refusal: &mut [u64; 4],
) -> u32
    ensures secret_wiped { secret_area.new ≡ zeros secret_area.old }
    ensures product_wiped { product_area.new ≡ zeros product_area.old }
    ensures answer { Exported (proposal_of numbers.now lengths.entry) result refusal.new key.new key.old
        (λ s. published (book_of tape.now taped) s (coins_alone coins.now) 0 (length key.old) (length secret_area.old) (length product_area.old)) }
{
    keyseal_publish(
        numbers,
        lengths,
        tape,
        taped,
        &alone(coins),
        0,
        key,
        secret_area,
        product_area,
        refusal,
    )
}

/// Writes the secret that coins that the caller keeps make of a parcel, as if they stood at place 0 of a rack.
#[unsafe(no_mangle)]
pub extern "C" fn keyseal_open_coins(
    numbers: &Numbers,
    lengths: &[u16],
    tape: &[u8],
    taped: bool,
    coins: &[u8; 96],
    parcel: &[u8],
    secret: &mut [u8],
    secret_area: &mut [u16],
    product_area: &mut [u16],
    refusal: &mut [u64; 4],
) -> u32
    ensures secret_wiped { secret_area.new ≡ zeros secret_area.old }
    ensures product_wiped { product_area.new ≡ zeros product_area.old }
    ensures answer { Exported (proposal_of numbers.now lengths.entry) result refusal.new secret.new secret.old
        (λ s. opened (book_of tape.now taped) s (coins_alone coins.now) 0 (length secret.old) (length secret_area.old) (length product_area.old) parcel.now) }
{
    keyseal_open(
        numbers,
        lengths,
        tape,
        taped,
        &alone(coins),
        0,
        parcel,
        secret,
        secret_area,
        product_area,
        refusal,
    )
}
