//! The questions to a context.

ghost use Rattle.std.specs.Prelude.{◌<◌, ℕ, List, map, length, IfOk};
ghost use Rattle.mcs_sets.specs.Sets.{common};
ghost use Rattle.mcs_base.specs.Listings.{IsAmong, IsListing};
ghost use Rattle.mcs_system.specs.Imports.{IsImportOrder, supplied, rules_into};
ghost use Rattle.mcs_system.specs.Levels.{IsQuestionAt};
ghost use Rattle.mcs_system.specs.Systems.{applicable};
ghost use Rattle.mcs_import.specs.Plans.{AreSupplies};
ghost use Rattle.mcs_import.specs.States.{IsAskedInState};

use crate::near::near_sets;
use crate::plan::Plan;
use crate::states::{guessed_states, supplied_states};
use mcs_base::{Active, Memory, Pair, Vars, list_rule_sets};
use mcs_system::System;
use std::alloc::Global;

/// The sets of rules into context `i` of the system that apply in one of the states: each once,
/// ascending as numbers.
fn applicable_sets(
    alloc: Global,
    system: &System,
    i: u32,
    states: &[Vars],
) -> Result<Vec<Active>, Memory>
    requires { i < length system.now.contexts }
    ensures { IfOk result (λ sets. IsListing
        (λ a. IsAmong a (map (λ σ. common (applicable system.now σ) (rules_into system.now i))
        states.now))
        (λ a b. a < b) sets.items) }
{
    let mut sets = Vec::new(alloc);
    for state in states {
        sets.push(system.applicable(i, *state))?;
    }
    list_rule_sets(&mut sets);
    Ok(sets)
}

/// The sets of rules into context `i` of the system that at most `level` changes make of those that
/// apply in some state: each once, ascending as numbers. The state is the union of one state of
/// each supply and of some of the guesses at the inputs of `i`. A change removes a rule that is not
/// kept, or forces one that is not closed.
pub fn asked(
    alloc: Global,
    system: &System,
    i: u32,
    supplies: &[Vec<Vars>],
    guesses: Vars,
    level: u32,
) -> Result<Vec<Active>, Memory>
    requires { i < length system.now.contexts }
    ensures { IfOk result (λ sets.
        IsListing (IsAskedInState system.now i (map (λ supply. supply.items) supplies.now) guesses
        level) (λ a b. a < b) sets.items) }
{
    let joined = supplied_states(alloc, supplies, system.inputs_of(i))?;
    let states = guessed_states(joined, guesses)?;
    let sets = applicable_sets(alloc, system, i, &states)?;
    let allowed = Pair::new(system.allowed());
    near_sets(
        alloc,
        system.rules_of(i),
        allowed.removed(),
        allowed.forced(),
        sets,
        level,
    )
}

/// The questions of the level to context `i` of the plan's system: the sets of rules into it that
/// at most `level` changes make of those that apply in some state. Each question is there once,
/// ascending as numbers.
///
/// A change removes a rule that is not kept, or forces one that is not closed. On each context that
/// supplies `i` the state is one of its supplies; on all others, also on `i` itself, it is free.
/// `supplies` has to be what the contexts of `plan.supplied(i)` may supply at this level, in this
/// order, each list in the order of states.
pub fn questions(
    alloc: Global,
    plan: &Plan,
    i: u32,
    supplies: &[Vec<Vars>],
    level: u32,
) -> Result<Vec<Active>, Memory>
    requires in_range { i < length plan.now.contexts }
    requires supplied { (order : List ℕ) → IsImportOrder plan.now order
        → AreSupplies plan.now level (supplied plan.now order i)
        (map (λ supply. supply.items) supplies.now) }
    ensures { IfOk result (λ sets. IsListing (IsQuestionAt plan.now level i)
        (λ a b. a < b) sets.items) }
{
    asked(alloc, plan.system(), i, supplies, plan.guessed(i), level)
}
