//! All local rows of a context.

ghost use Rattle.std.specs.Prelude.{◌≡◌, ◌<◌, [], ℕ, List, map, length, IfOk};
ghost use Rattle.std.specs.List.{AllByRecursion, flat_map};
ghost use Rattle.mcs_sets.specs.Sets.{Within};
ghost use Rattle.mcs_system.specs.Imports.{IsImportOrder, supplied, rules_into};
ghost use Rattle.mcs_import.specs.Plans.{AreSupplies};
ghost use Rattle.mcs_rows.specs.Answers.{answered_of};
ghost use Rattle.mcs_rows.specs.Local.{AreAnswered, IsLocalTable};
ghost use Rattle.mcs_rows.specs.Making.{rows_of};
ghost use Rattle.mcs_rows.specs.declared.answer.Answer as declared;

use crate::answer::Answer;
use crate::local::{add_answers, reach_of};
use crate::states::input_states;
use mcs_base::{Memory, Vars};
use mcs_import::Plan;
use mcs_system::System;
use mcs_table::{Row, Table};
use std::alloc::Global;

/// The rows of context `i` of each of the states at its inputs with each of the answers.
fn all_rows(
    alloc: Global,
    system: &System,
    i: u32,
    states: &[Vars],
    answers: &[Answer],
    level: u32,
) -> Result<Vec<Row>, Memory>
    requires in_range { i < length system.now.contexts }
    requires of_rules { AllByRecursion (λ (a : declared.Answer).
        Within a.active (rules_into system.now i)) answers.now }
    ensures { IfOk result (λ all. all.items
        ≡ flat_map (rows_of system.now i level [] answers.now) states.now) }
{
    let reach = reach_of(system, level, &[]);
    let mut all = Vec::new(alloc);
    for state in states {
        add_answers(&mut all, system, i, *state, answers, &reach)?;
    }
    Ok(all)
}

/// All local rows of context `i` of the plan's system at the level, as a table on its local
/// variables: what it accepts on these with the marks that this takes, which are allowed and at
/// most `level`. There may be 4 to the number of its rules of them, and more: some for each set of
/// rules that applies and each that is asked in its place. `supplies` are what the contexts of
/// `plan.supplied(i)` may supply at this level, in this order, each list in the order of states;
/// `answers` are those of `i` to all its questions of the level, ascending by the numbers that
/// stand for them.
pub fn local_rows(
    alloc: Global,
    plan: &Plan,
    i: u32,
    supplies: &[Vec<Vars>],
    answers: &[Answer],
    level: u32,
) -> Result<Table, Memory>
    requires in_range { i < length plan.now.contexts }
    requires supplied { (order : List ℕ) → IsImportOrder plan.now order
        → AreSupplies plan.now level (supplied plan.now order i)
        (map (λ supply. supply.items) supplies.now) }
    requires answered { AreAnswered plan.now level i (map answered_of answers.now) }
    ensures { IfOk result (IsLocalTable plan.now level i) }
{
    let system = plan.system();
    let states = input_states(alloc, plan, i, supplies)?;
    let all = all_rows(alloc, system, i, &states, answers, level)?;
    Ok(Table::new(system.vars_of(i).union(system.inputs_of(i)), all))
}
