//! Laws over the definitions. The functions compute nothing: each contract is a law.

ghost use Rattle.mcs_cheapest.specs.Laws.{CheapestAreListed, CheapestAreOne};
ghost use Rattle.mcs_cheapest.specs.Laws.{LeastCostsExist, LeastCostsAreOne};

/// The cheapest diagnoses have exactly one listing. There is exactly one least cost, or no
/// diagnosis.
pub fn cheapest_are_listed()
    ensures listed { CheapestAreListed }
    ensures one { CheapestAreOne }
    ensures cost { LeastCostsExist }
    ensures same { LeastCostsAreOne }
{}
