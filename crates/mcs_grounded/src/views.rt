//! The answer sets of a program that show a part of a state, told apart by the atoms of its cone.

ghost use Rattle.std.specs.Prelude.{◌≡◌, ◌<◌, ◌≤◌, length, map, IfOk};
ghost use Rattle.mcs_system.specs.Seen.{rule_of};
ghost use Rattle.mcs_system.specs.Views.{at_places};
ghost use Rattle.mcs_evidence.specs.Programs.{IsInRange};
ghost use Rattle.mcs_grounded.specs.Parts.{IsConeOf, IsProgramAt, IsProgramContext, IsSetUp};
ghost use Rattle.mcs_grounded.specs.Views.{AreConeSets, AreConeViews, AreShown, names_there};

use crate::basis::Derivation;
use crate::cone::Cone;
use crate::places::numbers_at;
use mcs_asking::{at_places, heads_into};
use mcs_base::{Memory, Vars};
use mcs_program::list_answer_sets;
use mcs_system::{Kb, Name, ProgRule, names_of};
use std::alloc::Global;

/// The names at the places, in order.
fn names_at<'a>(alloc: Global, atoms: &'a [Name], places: Vars) -> Result<Vec<&'a Name>, Memory>
    requires { IsInRange atoms.now places }
    ensures names { IfOk result (λ names. map (λ n. n.now) names.items
        ≡ names_there atoms.now places) }
    ensures few { IfOk result (λ names. length names.items ≤ 64) }
{
    let mut names = Vec::new(alloc);
    for place in places.members() {
        names.push(&atoms[place as usize])?;
    }
    Ok(names)
}

/// The answer sets of the program, with the heads of the rules that apply in the state, as views of
/// the atoms of the cone.
fn answer_views(
    alloc: Global,
    derivation: &Derivation<'_>,
    context: u32,
    rules: &[ProgRule],
    cone: &Cone,
) -> Result<Vec<Vars>, Memory>
    requires set_up { IsSetUp derivation.now }
    requires program { IsProgramAt derivation.now.system.now context (map rule_of rules.now) }
    requires cone { IsConeOf derivation.now.system.now context (map rule_of rules.now) cone.now }
    ensures { IfOk result (λ views. AreConeSets derivation.now.system.now derivation.now.state
        context (map rule_of rules.now) cone.now.places
        (map (at_places cone.now.places) views.items)) }
{
    let system = derivation.system;
    let atoms = system.atoms_of(context);
    let heads = heads_into(alloc, system, context, derivation.goal)?;
    let facts = names_of(alloc, &heads)?;
    let asked = names_at(alloc, atoms, cone.places)?;
    list_answer_sets(alloc, rules, &facts, &asked, atoms)
}

/// The sets of places of the views of the cone's atoms, of those that show the state's part of the
/// context.
fn shown(
    alloc: Global,
    derivation: &Derivation<'_>,
    context: u32,
    places: Vars,
    views: &[Vars],
) -> Result<Vec<Vars>, Memory>
    requires { context < length derivation.now.system.now.contexts }
    ensures { IfOk result (λ found. AreShown derivation.now context
        (map (at_places places) views.now) found.items) }
{
    let variables = derivation.system.vars_of(context);
    let part = derivation.state.common(variables);
    let mut found = Vec::new(alloc);
    for view in views {
        let set = at_places(places, *view);
        if numbers_at(&derivation.places.reads, variables.members(), set) == part {
            found.push(set)?;
        }
    }
    Ok(found)
}

/// The sets of atoms of the cone that the answer sets of the context's program have, with the heads
/// of the rules that apply in the state; of these, the ones that show the state's part of the
/// context.
pub(crate) fn cone_views(
    alloc: Global,
    derivation: &Derivation<'_>,
    context: u32,
) -> Result<Vec<Vars>, Memory>
    requires set_up { IsSetUp derivation.now }
    requires program { IsProgramContext derivation.now.system.now context }
    ensures { IfOk result (λ views. AreConeViews derivation.now context views.items) }
{
    let cone = &derivation.cones[context as usize];
    let Kb::Program(rules) = &derivation.system.contexts()[context as usize].kb else {
        unreachable!()
    };
    let views = answer_views(alloc, derivation, context, rules, cone)?;
    shown(alloc, derivation, context, cone.places, &views)
}
