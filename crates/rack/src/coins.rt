// Finding coins, and dropping them.
ghost use Rattle.std.specs.Prelude.{◌≡◌};
ghost use Rattle.calls.specs.Chains.{bind};
ghost use Rattle.rack.specs.Calls.{at, coins_at, known_place, unused};

use crate::rack::Rack;
use crate::record::{Coins, PLACES, Record};
use calls::Refusal;

// Refuses a place that there is not.
fn check_place(place: u8) -> Result<(), Refusal>
    ensures { result ≡ known_place place }
{
    if place as usize >= PLACES {
        Err(Refusal::NoSuchPlace(place))
    } else {
        Ok(())
    }
}

impl<S> Rack<S> {
    // The coins at a place.
    pub(crate) fn find_coins(&self, place: u8) -> Result<Coins, Refusal>
        ensures { result ≡ coins_at self.now.places place }
    {
        check_place(place)?;
        self.places[place as usize].ok_or(Refusal::EmptyPlace(place))
    }

    // Refuses a place that there is not, or that is in use.
    pub(crate) fn check_unused(&self, place: u8) -> Result<(), Refusal>
        ensures { result ≡ bind (known_place place) (λ _. unused place (at self.now.places place)) }
    {
        check_place(place)?;
        match self.places[place as usize] {
            Some(_) => Err(Refusal::PlaceInUse(place)),
            None => Ok(()),
        }
    }
}

// Empties a record; the coins that it held are overwritten first.
pub(crate) fn erase(slot: &mut Record)
    ensures { slot.new ≡ None }
{
    if let Some(coins) = slot {
        coins.sigma.fill(0);
        coins.seed.fill(0);
        coins.z.fill(0);
    }
    *slot = None;
}
