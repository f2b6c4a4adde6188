// The places of a rack as C holds them.
ghost use Rattle.std.specs.Prelude.{◌≡◌, ◌<◌, length};
ghost use Rattle.calls.specs.Chains.{Answers};
ghost use Rattle.rack.specs.Calls.{place_count, retired};
ghost use Rattle.keyseal.specs.Places.{record_of, records, in_use, coins_alone, with_coins, emptied};
ghost use Rattle.keyseal.specs.Told.{if_done};

use crate::layout::Place;
use calls::Refusal;
use rack::{Coins, PLACES, Record};

impl Place {
    // A place not in use.
    const EMPTY: Place = Place {
        held: false,
        coins: [0; 96],
    };

    // A place in use with these coins.
    fn with(coins: [u8; 96]) -> Place
        ensures { result ≡ in_use coins }
    {
        Place { held: true, coins }
    }
}

// What a place holds.
fn record_of(place: &Place) -> Record
    ensures { result ≡ record_of place.now }
{
    place.held.then(|| Coins::from(&place.coins))
}

// What the places hold.
pub(crate) fn records_of(places: &[Place; PLACES]) -> [Record; PLACES]
    ensures { result ≡ records places.now }
{
    places.map(|place| record_of(&place))
}

// Puts coins into a place.
pub(crate) fn keep(places: &mut [Place; PLACES], place: u8, coins: &[u8])
    requires known { place < place_count }
    requires long { length coins.now ≡ 96 }
    ensures { places.new ≡ with_coins places.old place coins.now }
{
    let mut held = [0u8; 96];
    held.copy_from_slice(coins);
    places[place as usize] = Place::with(held);
}

// Retire: writes zeros over a place in use.
pub(crate) fn retire(places: &mut [Place; PLACES], place: u8) -> Result<(), Refusal>
    ensures cases { Answers result (retired (records places.old) place) (records places.new) (records places.old) }
    ensures bytes { places.new ≡ if_done result (emptied places.old place) places.old }
{
    let at = place as usize;
    if at >= PLACES {
        return Err(Refusal::NoSuchPlace(place));
    }
    if !places[at].held {
        return Err(Refusal::EmptyPlace(place));
    }
    places[at] = Place::EMPTY;
    Ok(())
}

// Four places, with coins at the first alone.
pub(crate) fn alone(coins: &[u8; 96]) -> [Place; PLACES]
    ensures { records result ≡ coins_alone coins.now }
{
    let first = Place::with(*coins);
    let empty = Place::EMPTY;
    [first, empty, empty, empty]
}
