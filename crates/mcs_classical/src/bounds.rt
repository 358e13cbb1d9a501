//! What was found to follow with sets of assumptions: bounds that hold for larger or smaller sets
//! too.

ghost use Rattle.std.specs.Prelude.{List};
ghost use Rattle.std.specs.List.{AllByRecursion};
ghost use Rattle.mcs_system.specs.Plain as plain;
ghost use Rattle.mcs_classical.specs.Consequences.{with_assumed, DoFollow, IsLowerConsequence};
ghost use Rattle.mcs_classical.specs.Consequences.{IsUpperConsequence, NoOthersFollow};
ghost use Rattle.mcs_classical.specs.declared.assumptions.Assumption as declared;

use mcs_base::{Active, Vars};

/// A lower bound: goals that follow from the formulas with some assumptions, and so with more.
#[derive(Clone, Copy)]
pub(crate) struct Lower {
    pub(crate) assumed: Active,
    pub(crate) entailed: Vars,
}

/// An upper bound: goals besides which none follows from the formulas with some assumptions, and so
/// with fewer.
#[derive(Clone, Copy)]
pub(crate) struct Upper {
    pub(crate) assumed: Active,
    pub(crate) possible: Vars,
}

/// The goals that, by what was found, follow with the assumptions in the set.
pub(crate) fn entailed_with(lower: &[Lower], set: Active) -> Vars
    ensures { (fs : List plain.Formula) (assumptions : List declared.Assumption)
        (goals : List plain.Formula)
        → AllByRecursion (IsLowerConsequence fs assumptions goals) lower.now
        → DoFollow (with_assumed fs assumptions set) goals result }
{
    let mut entailed = Vars::empty();
    for found in lower {
        if found.assumed.within(set) {
            entailed = entailed.union(found.entailed);
        }
    }
    entailed
}

/// Those of the goals that, by what was found, may follow with the assumptions in the set.
pub(crate) fn possible_with(upper: &[Upper], set: Active, goals: Vars) -> Vars
    ensures { (fs : List plain.Formula) (assumptions : List declared.Assumption)
        (all : List plain.Formula)
        → NoOthersFollow (with_assumed fs assumptions set) all goals
        → AllByRecursion (IsUpperConsequence fs assumptions all) upper.now
        → NoOthersFollow (with_assumed fs assumptions set) all result }
{
    let mut possible = goals;
    for found in upper {
        if set.within(found.assumed) {
            possible = possible.common(found.possible);
        }
    }
    possible
}
