//! Derivations: the rules that apply in a state, added one after the other from nothing.

ghost use Rattle.std.specs.Prelude.{◌<◌, ◌≤◌, length, IfOk};
ghost use Rattle.mcs_grounded.specs.Derivations.{AreTold, IsDerived, IsTold};
ghost use Rattle.mcs_grounded.specs.Parts.{AreAllFound, IsDerivation, cones_of};

use crate::basis::Derivation;
use crate::found::{Solver, ask};
use crate::normal::least_model;
use crate::places::{numbers_at, places_at};
use mcs_base::{Active, Memory, Vars};
use mcs_system::Kb;
use std::alloc::Global;

/// What the context tells with the heads of the rules. Once these are all its rules that apply in
/// the state, it is its part of the state. Before that a program tells what is in the least model
/// of its cone with these heads, where it is reduced by the atoms in `against`.
fn told(
    alloc: Global,
    derivation: &Derivation<'_>,
    found: &mut [Option<Solver>],
    against: &[Vars],
    rules: Active,
    context: u32,
) -> Result<Vars, Memory>
    requires context { context < length derivation.now.system.now.contexts }
    requires derivation { IsDerivation derivation.now found.old }
    requires against { length derivation.now.system.now.contexts ≤ length against.now }
    ensures found { AreAllFound derivation.now.system.now found.new }
    ensures told { IfOk result (IsTold derivation.now.system.now derivation.now.state
        (cones_of derivation.now.cones.now) against.now rules context) }
{
    let system = derivation.system;
    let place = context as usize;
    let into = system.rules_of(context);
    let variables = system.vars_of(context);
    if derivation.goal.common(into).within(rules) {
        return Ok(derivation.state.common(variables));
    }
    match &system.contexts()[place].kb {
        Kb::Classical(formulas) => {
            ask(alloc, system, context, formulas, &mut found[place], rules)
        }
        Kb::Program(_) => {
            let start = places_at(&derivation.places.heads, rules.common(into).members());
            let atoms = least_model(&derivation.cones[place].rules, against[place], start);
            Ok(numbers_at(&derivation.places.reads, variables.members(), atoms))
        }
        _ => unreachable!(),
    }
}

/// What all contexts tell with the heads of the rules.
fn told_all(
    alloc: Global,
    derivation: &Derivation<'_>,
    found: &mut [Option<Solver>],
    against: &[Vars],
    rules: Active,
) -> Result<Vars, Memory>
    requires derivation { IsDerivation derivation.now found.old }
    requires against { length derivation.now.system.now.contexts ≤ length against.now }
    ensures found { AreAllFound derivation.now.system.now found.new }
    ensures told { IfOk result (AreTold derivation.now.system.now derivation.now.state
        (cones_of derivation.now.cones.now) against.now rules) }
{
    let mut believed = Vars::empty();
    for context in 0..derivation.system.contexts().len() as u32 {
        let own = told(alloc, derivation, found, against, rules, context)?;
        believed = believed.union(own);
    }
    Ok(believed)
}

/// The rules that can be derived from nothing, of those that apply in the state. A rule is added
/// once its positive reads are told with the heads of those that were added before. Programs are
/// reduced by the atoms in `against`.
///
/// If these have each atom of the cones that a belief state with this projection has, the rules act
/// in each equilibrium of the reduct by it. If they have no other atom than the belief state, no
/// other rule acts with their heads there.
pub(crate) fn derive(
    alloc: Global,
    derivation: &Derivation<'_>,
    found: &mut [Option<Solver>],
    against: &[Vars],
) -> Result<Active, Memory>
    requires derivation { IsDerivation derivation.now found.old }
    requires against { length derivation.now.system.now.contexts ≤ length against.now }
    ensures found { AreAllFound derivation.now.system.now found.new }
    ensures derived { IfOk result (IsDerived derivation.now.system.now derivation.now.state
        (cones_of derivation.now.cones.now) against.now) }
{
    let system = derivation.system;
    let mut rules = Active::empty();
    loop {
        let believed = told_all(alloc, derivation, found, against, rules)?;
        let acting = system.applicable_rules(believed.common(derivation.state));
        let fresh = acting.common(derivation.goal).minus(rules);
        if fresh == Active::empty() {
            return Ok(rules);
        }
        rules = rules.union(fresh);
    }
}
