// The noise of an exchange, and when it leaves every bit as it was.
#![tactic(auto)]

ghost use Rattle.noise.specs.AnyProduct.{AnyProduct};
ghost use Rattle.noise.specs.Laws.{ExactNoise, BoundedNoise, SafeNoise};
ghost use Rattle.noise.specs.Worked.{Worked};

use params::moduli::Moduli;

// What is so for every public polynomial and every two secrets, whatever the moduli.
pub fn noise_laws(moduli: Moduli)
    ensures exact { ExactNoise moduli }
    ensures bounded { BoundedNoise moduli }
    ensures safe { SafeNoise moduli }
    ensures product { AnyProduct moduli }
{}

// One exchange worked through.
#[tactic(auto, using(crate::proofs::Worked::worked))]
pub fn worked_exchange()
    ensures { Worked }
{}
