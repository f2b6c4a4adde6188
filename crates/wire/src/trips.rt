// The round trips of keys and parcels, as a contract.
ghost use Rattle.params.specs.declared.set.Set.{Set};
ghost use Rattle.wire.specs.Trips.{KeyTrips, ParcelTrips};

// What is written passes the checks and reads back, and what is read writes back to the same bytes, for every set.
pub fn wire_trips()
    ensures keys { (s : Set) → KeyTrips s }
    ensures parcels { (s : Set) → ParcelTrips s }
{}
