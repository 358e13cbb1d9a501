//! Laws over the definitions. The functions compute nothing: each contract is a law.

ghost use Rattle.mcs_reduct.specs.Laws.{GroundedAreEquilibria, GroundedStatesAreStates};
ghost use Rattle.mcs_reduct.specs.Laws.{MutualSupportIsNotGrounded, MutualAttackIsGrounded};
ghost use Rattle.mcs_reduct.specs.Laws.{MinimalIsNotGrounded, ChoicesAreGrounded};
ghost use Rattle.mcs_reduct.specs.Laws.{ReductsHaveOneRuleSet, BlockedRulesAreDropped};
ghost use Rattle.mcs_reduct.specs.Laws.{GroundedHaveAListing, OneHeadIsPlain};

/// In a plain system each grounded belief state is an equilibrium. So the grounded states are among
/// the projected equilibria.
pub fn grounded_are_equilibria()
    ensures states { GroundedAreEquilibria }
    ensures projections { GroundedStatesAreStates }
{}

/// The grounded equilibria of each plain system have a listing.
pub fn grounded_equilibria_have_a_listing()
    ensures { GroundedHaveAListing }
{}

/// Each reduct has exactly one set of rules, and its equilibria are those of the system without the
/// other rules.
pub fn blocked_rules_are_dropped()
    ensures one { ReductsHaveOneRuleSet }
    ensures dropped { BlockedRulesAreDropped }
{}

/// Worked contexts: plain ones are formulas, and rules with exactly one head atom.
pub fn plain_contexts()
    ensures { OneHeadIsPlain }
{}

/// Worked systems. Two rules that only support each other are not grounded. Two rules, each against
/// what the other one tells, are grounded either way. Of two equilibria, neither of which lies
/// within the other, only one is grounded. What two programs choose by negation is grounded.
pub fn worked_systems()
    ensures support { MutualSupportIsNotGrounded }
    ensures attack { MutualAttackIsGrounded }
    ensures minimal { MinimalIsNotGrounded }
    ensures choices { ChoicesAreGrounded }
{}
