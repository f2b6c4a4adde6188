// The laws of rounding, as a contract.
ghost use Rattle.params.specs.declared.moduli.Moduli.{Moduli};
ghost use Rattle.rounding.specs.RoundingLaws.{Rounds};
ghost use Rattle.rounding.specs.Worked.{Worked};

// The laws hold at all moduli; and rounding is worked through for q = 256, p = 64 and t = 8.
#[tactic(auto, using(crate::proofs::Errors::rounds, crate::proofs::Worked::worked))]
pub fn rounding_laws()
    ensures laws { (M : Moduli) → Rounds M }
    ensures worked { Worked }
{}
