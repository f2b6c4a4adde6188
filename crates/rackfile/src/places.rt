// The places of a rack as bytes: each a mark, 0 or 1, and the coins of a place in use.
ghost use Rattle.std.specs.Prelude.{◌≡◌, ◌*◌, length};
ghost use Rattle.rack.specs.Calls.{place_count};
ghost use Rattle.rackfile.specs.Places.{place_size, place_bytes, places_bytes, place_from, places_from, WholePlace, WholePlaces};

use rack::{COIN_BYTES, Coins, PLACES, Record};

// The bytes of a place.
const PLACE_BYTES: usize = 1 + COIN_BYTES;

// The bytes of a place.
#[tactic(auto, unfolding(crate::specs::Places::unused_bytes))]
fn place_bytes(place: Record) -> [u8; PLACE_BYTES]
    ensures bytes { result ≡ place_bytes place }
    ensures whole { WholePlace place }
{
    let mut bytes = [0u8; PLACE_BYTES];
    match place {
        None => {}
        Some(coins) => {
            bytes[0] = 1;
            bytes[1..PLACE_BYTES].copy_from_slice(&coins.bytes());
        }
    }
    bytes
}

// Writes places, one after the other.
pub(crate) fn write_places(places: &[Record; PLACES], out: &mut [u8])
    requires { length out.old ≡ place_size * place_count }
    ensures bytes { out.new ≡ places_bytes places.now }
    ensures whole { WholePlaces places.now }
{
    out.copy_from_slice(places.map(place_bytes).as_flattened());
}

// What a place holds, which is in use unless its mark is 0.
fn read_place(bytes: &[u8; PLACE_BYTES]) -> Record
    ensures { result ≡ place_from bytes.now }
{
    if bytes[0] == 0 {
        None
    } else {
        bytes[1..PLACE_BYTES].as_array().map(Coins::from)
    }
}

// Reads the places of a rack.
pub(crate) fn read_places(bytes: &[u8]) -> [Record; PLACES]
    requires { length bytes.now ≡ place_size * place_count }
    ensures { result ≡ places_from place_count bytes.now }
{
    let (parts, _) = bytes.as_chunks::<PLACE_BYTES>();
    [
        read_place(&parts[0]),
        read_place(&parts[1]),
        read_place(&parts[2]),
        read_place(&parts[3]),
    ]
}
