// The laws of the product, as a contract.
ghost use Rattle.std.specs.Prelude.{ℕ, ◌+◌};
ghost use Rattle.ring.specs.Cyclic.{cyclic};
ghost use Rattle.ring.specs.RingLaws.{Multiplies};
ghost use Rattle.ring.specs.Worked.{Worked};

// The four laws of the cyclic product of n coefficients and a secret, whatever n is, and one product worked through.
#[tactic(auto, using(crate::proofs::CyclicLaws::cyclic_multiplies, crate::proofs::Worked::worked))]
pub fn ring_laws()
    ensures laws { (n : ℕ) → Multiplies n (cyclic (n + 1)) }
    ensures worked { Worked }
{}
