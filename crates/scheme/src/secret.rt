// The secret of a set.
ghost use Rattle.ring.specs.Cyclic.{Within};

use params::set::Set;

/// A secret of a set, by its positions, which are below n. Whoever holds one need not test them again.
#[derive(Clone, Copy)]
pub struct Secret<'a> {
    pub set: &'a Set,
    pub positions: &'a [u16],
    pub ghost within: { Within set.now.n positions.now },
}
