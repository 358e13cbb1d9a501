//! Laws over the definitions. The functions compute nothing: each contract is a law.

ghost use Rattle.mcs_asking.specs.Laws.{AcceptedAnswersAreRight};

/// The outputs of an accepted certificate are the listing of what the context accepts.
pub fn accepted_answers_are_right()
    ensures { AcceptedAnswersAreRight }
{}
