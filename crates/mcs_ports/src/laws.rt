//! What follows if a count of faults rose. The functions compute nothing: each contract is a law.

ghost use Rattle.mcs_ports.specs.Laws.{RisenCountsAreGreater, StandingCountsHaveNotRisen};
ghost use Rattle.mcs_ports.specs.Laws.{RisesAddUp};

/// A count that rose is greater than before, or is at the counter's greatest value. A count that
/// stays the same below that value has not risen. A count that rose in a part of a time rose in the
/// whole of it.
pub fn counts_rise()
    ensures greater { RisenCountsAreGreater }
    ensures standing { StandingCountsHaveNotRisen }
    ensures add_up { RisesAddUp }
{}
