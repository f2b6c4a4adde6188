// The product put together: the one place that chooses the source of station and till.
#![tactic(auto)]

ghost use Rattle.std.specs.Prelude.{◌≡◌, [], ◌++◌, drop, Decides};
ghost use Rattle.params.specs.Sizes.{BelowLine};
ghost use Rattle.sponge.specs.Book.{sponge_book};
ghost use Rattle.sponge.specs.Remaining.{remaining};
ghost use Rattle.rack.specs.Calls.{all_empty};
ghost use Rattle.agreement.specs.Agreement.{NoiseTells, NoiseBounded, Opens, NeverOut, Publishes};

use fetch::Fetch;
use params::set::Set;
use rack::Rack;
use sponge::Sponge;

/// The source of station and till: the fetch layer over the sponge.
pub type KitSource = Fetch<Sponge>;

/// A source with nothing to come yet.
pub fn new_source() -> KitSource
    ensures { drop result.from result.bytes ++ remaining result.source ≡ [] }
{
    Fetch::new(Sponge::new())
}

/// A till's rack for a set, with all places empty.
pub fn new_rack(set: Set) -> Rack<KitSource>
    ensures { (result.set ≡ set) × (result.places ≡ all_empty) }
{
    Rack::new(set, new_source())
}

/// Whether every parcel that is sealed to a published key of this rack, and that nobody touched, opens at its place until that is retired.
/// Its contract is the agreement of a station and this till, both over the sponge's book.
pub fn always_opens(rack: &Rack<KitSource>) -> bool
    ensures verdict { Decides result (BelowLine rack.now.set) }
    ensures noise_tells { NoiseTells sponge_book sponge_book rack.now.set }
    ensures noise_bounded { NoiseBounded sponge_book rack.now.set }
    ensures opens { Opens sponge_book sponge_book rack.now.set }
    ensures never_out { NeverOut sponge_book rack.now.set }
    ensures publishes { Publishes sponge_book rack.now.set }
{
    agreement::always_opens(&new_source(), rack)
}
