//! Laws: each system has a listing of its equilibria, and each level a number of questions. The
//! functions compute nothing: each contract is a law.
#![tactic(auto)]

ghost use Rattle.mcs_existence.specs.Laws.{StatesHaveAListing, CountsExist};

/// The projected equilibria of a system have a listing, also if the system is changed.
pub fn states_have_a_listing()
    ensures { StatesHaveAListing }
{}

/// A level has a number of questions.
pub fn questions_are_counted()
    ensures { CountsExist }
{}
