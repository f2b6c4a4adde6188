// The rack and its calls.
ghost use Rattle.std.specs.Prelude.{◌≡◌, length};
ghost use Rattle.calls.specs.Areas.{zeros};
ghost use Rattle.calls.specs.Chains.{Answers};
ghost use Rattle.rack.specs.Calls.{all_empty, issued, published, opened, retired};

use crate::coins::erase;
use crate::record::{PLACES, Record};
use calls::{Refusal, Wiped};
use params::set::Set;
use source::Source;

/// A till's rack: made for one set and one source, with four places.
#[derive(Drop)]
pub struct Rack<S> {
    pub(crate) set: Set,
    pub(crate) source: S,
    pub(crate) places: [Record; PLACES],
}

impl<S: Source> Rack<S> {
    /// A rack for a set and a source, with all places empty.
    pub fn new(set: Set, source: S) -> Rack<S>
        ensures { (result.set ≡ set) × (result.source ≡ source) × (result.places ≡ all_empty) }
    {
        Rack {
            set,
            source,
            places: [None; PLACES],
        }
    }

    /// A rack with the places of another, as they were read from that one: a till that was switched off goes on where it was. The source
    /// must have the same book as the one before, or keys and secrets change; no call is less than its contract says if it has not.
    pub fn resume(set: Set, source: S, places: [Record; PLACES]) -> Rack<S>
        ensures { (result.set ≡ set) × (result.source ≡ source) × (result.places ≡ places) }
    {
        Rack {
            set,
            source,
            places,
        }
    }

    /// What the places hold.
    pub fn places(&self) -> &[Record; PLACES]
        ensures { result.now ≡ self.now.places }
    {
        &self.places
    }

    /// The set that the rack was made for.
    pub fn set(&self) -> &Set
        ensures { result.now ≡ self.now.set }
    {
        &self.set
    }

    // Kept: the two working areas are two lent slices, as the C interface and every call of the kit lend them.

    /// Keeps coins at an empty place, if both their seeds expand. Each call changes at most the place that it names; on a refusal all
    /// places are as before.
    pub fn issue(
        &mut self,
        place: u8,
        coins: &[u8],
        secret_area: &mut [u16],
        product_area: &mut [u16],
    ) -> Result<(), Refusal>
        ensures kept { (self.new.set ≡ self.old.set) × (S.book self.new.source ≡ S.book self.old.source) }
        ensures secret_wiped { secret_area.new ≡ zeros secret_area.old }
        ensures product_wiped { product_area.new ≡ zeros product_area.old }
        ensures cases { Answers result
            (issued (S.book self.old.source) self.old.set self.old.places place (length secret_area.old) (length product_area.old) coins.now)
            self.new.places self.old.places }
    {
        let secret_area = Wiped { area: secret_area };
        let product_area = Wiped { area: product_area };
        self.issue_within(place, coins, secret_area.area, product_area.area)
    }

    /// Writes the key of the coins at a place.
    pub fn publish(
        &mut self,
        place: u8,
        key: &mut [u8],
        secret_area: &mut [u16],
        product_area: &mut [u16],
    ) -> Result<(), Refusal>
        ensures kept { (self.new.set ≡ self.old.set) × (S.book self.new.source ≡ S.book self.old.source) }
        ensures places { self.new.places ≡ self.old.places }
        ensures secret_wiped { secret_area.new ≡ zeros secret_area.old }
        ensures product_wiped { product_area.new ≡ zeros product_area.old }
        ensures cases { Answers result
            (published (S.book self.old.source) self.old.set self.old.places place (length key.old) (length secret_area.old) (length product_area.old))
            key.new key.old }
    {
        let secret_area = Wiped { area: secret_area };
        let product_area = Wiped { area: product_area };
        self.publish_within(place, key, secret_area.area, product_area.area)
    }

    /// Writes the secret that the coins at a place make of a parcel. The answer does not say whether the parcels matched.
    pub fn open(
        &mut self,
        place: u8,
        parcel: &[u8],
        secret_out: &mut [u8],
        secret_area: &mut [u16],
        product_area: &mut [u16],
    ) -> Result<(), Refusal>
        ensures kept { (self.new.set ≡ self.old.set) × (S.book self.new.source ≡ S.book self.old.source) }
        ensures places { self.new.places ≡ self.old.places }
        ensures secret_wiped { secret_area.new ≡ zeros secret_area.old }
        ensures product_wiped { product_area.new ≡ zeros product_area.old }
        ensures cases { Answers result
            (opened (S.book self.old.source) self.old.set self.old.places place (length secret_out.old) (length secret_area.old) (length product_area.old) parcel.now)
            secret_out.new secret_out.old }
    {
        let secret_area = Wiped { area: secret_area };
        let product_area = Wiped { area: product_area };
        self.open_within(
            place,
            parcel,
            secret_out,
            secret_area.area,
            product_area.area,
        )
    }

    /// Empties a place; the coins that it held are overwritten first.
    pub fn retire(&mut self, place: u8) -> Result<(), Refusal>
        ensures kept { (self.new.set ≡ self.old.set) × (self.new.source ≡ self.old.source) }
        ensures cases { Answers result (retired self.old.places place) self.new.places self.old.places }
    {
        let _ = self.find_coins(place)?;
        erase(&mut self.places[place as usize]);
        Ok(())
    }
}
