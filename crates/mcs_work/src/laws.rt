//! Laws of the listings of grounded equilibria and of cheapest diagnoses. The functions compute
//! nothing: each contract is a law.

ghost use Rattle.mcs_work.specs.Cheapest.{CheapestTextsAreOne, CheapestTextsExist};
ghost use Rattle.mcs_work.specs.Cheapest.{CheapestStagesAreFronts};
ghost use Rattle.mcs_work.specs.Grounded.{GroundedTextsAreOne, GroundedTextsExist};
ghost use Rattle.mcs_work.specs.Grounded.{GroundedStagesAreFronts};

/// A system has at most one listing of its grounded equilibria, a plain one has one, and each stage
/// of it is a prefix of it.
pub fn grounded_texts_are_unambiguous()
    ensures one { GroundedTextsAreOne }
    ensures exist { GroundedTextsExist }
    ensures stages { GroundedStagesAreFronts }
{}

/// A system has at most one listing of its cheapest diagnoses, and each stage of it is a prefix of
/// it.
pub fn cheapest_texts_are_unambiguous()
    ensures one { CheapestTextsAreOne }
    ensures stages { CheapestStagesAreFronts }
{}

/// Each valid system has a listing of its cheapest diagnoses.
pub fn cheapest_texts_exist()
    ensures { CheapestTextsExist }
{}
