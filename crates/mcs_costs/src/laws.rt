//! Laws over the definitions. The functions compute nothing: each contract is a law.

ghost use Rattle.mcs_costs.specs.Laws.{CheapestAreMinimal, CheapestExist, CheapestHaveFewMarks};
ghost use Rattle.mcs_costs.specs.Laws.{CostsGrow, StopLevelIsQuotient, StopLevelsAreOne};
ghost use Rattle.mcs_costs.specs.Laws.{StopLevelsExist, StopLevelWithoutDiagnoses};
ghost use Rattle.mcs_costs.specs.Worked.{BarredIsUnpaid, BothMarksArePaid, ConsistentIsFree};
ghost use Rattle.mcs_costs.specs.Worked.{ForcingIsCheapest, LightRulesDelay, MarksCostTheirRules};

/// A pair costs no more than one that has all its marks.
pub fn costs_grow()
    ensures { CostsGrow }
{}

/// A cheapest diagnosis is minimal, and has at most as many marks as the stop level says. If there
/// is a diagnosis, there is a cheapest one.
pub fn cheapest_are_minimal()
    ensures minimal { CheapestAreMinimal }
    ensures few { CheapestHaveFewMarks }
    ensures exist { CheapestExist }
{}

/// The stop level is the least cost divided by the least weight, rounded down, but no more than
/// there are rules. If there is no diagnosis, it is the number of rules. Each system has exactly
/// one.
pub fn stop_level_is_a_quotient()
    ensures quotient { StopLevelIsQuotient }
    ensures without { StopLevelWithoutDiagnoses }
    ensures exist { StopLevelsExist }
    ensures one { StopLevelsAreOne }
{}

/// Worked costs: of marks of two rules, and of both marks of one.
pub fn worked_costs()
    ensures marks { MarksCostTheirRules }
    ensures both { BothMarksArePaid }
{}

/// Worked systems: one that a mark repairs, at several weights; one that nothing repairs; and a
/// consistent one.
pub fn worked_stop_levels()
    ensures forcing { ForcingIsCheapest }
    ensures light { LightRulesDelay }
    ensures barred { BarredIsUnpaid }
    ensures consistent { ConsistentIsFree }
{}
