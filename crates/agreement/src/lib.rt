// The agreement between a station and a till, as the contract of the question that a shopkeeper asks.
#![tactic(auto)]

ghost use Rattle.std.specs.Prelude.{◌≡◌, Decides};
ghost use Rattle.params.specs.Sizes.{BelowLine};
ghost use Rattle.agreement.specs.Agreement.{NoiseTells, NoiseBounded, Opens, NeverOut, Publishes};

use rack::Rack;
use source::Source;

/// Whether every parcel that is sealed to a published key of this rack's set, and that nobody touched, opens at its place until that is
/// retired. Its contract is the agreement, for any two sources with equal books, one at the station and one at the till.
pub fn always_opens<T: Source, K: Source>(station: &T, rack: &Rack<K>) -> bool
    ensures verdict { Decides result (BelowLine rack.now.set) }
    ensures noise_tells { T.book station.now ≡ K.book rack.now.source → NoiseTells (T.book station.now) (K.book rack.now.source) rack.now.set }
    ensures noise_bounded { NoiseBounded (K.book rack.now.source) rack.now.set }
    ensures opens { T.book station.now ≡ K.book rack.now.source → Opens (T.book station.now) (K.book rack.now.source) rack.now.set }
    ensures never_out { NeverOut (K.book rack.now.source) rack.now.set }
    ensures publishes { Publishes (K.book rack.now.source) rack.now.set }
{
    rack.set().below_line()
}
