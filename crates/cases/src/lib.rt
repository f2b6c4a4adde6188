// The worked cases: small numbers followed through every rule, as rows of one list under one theorem.
#![tactic(auto)]

ghost use Rattle.cases.specs.Cases.{WorkedCases};

/// Every worked case holds of the definitions that the kit's contracts use.
pub fn worked_cases()
    ensures { WorkedCases }
{}
