//! The local rows of a context in a system that a pair changes.

ghost use Rattle.std.specs.Prelude.{◌≡◌, ◌<◌, ◌≤◌, ◌↔◌, ◌⊎◌, ℕ, List, map, length, IfOk};
ghost use Rattle.mcs_base.specs.Listings.{IsAmong};
ghost use Rattle.mcs_sets.specs.Sets.{common, size, Within};
ghost use Rattle.mcs_base.specs.Pairs.{removed_of, forced_of};
ghost use Rattle.mcs_system.specs.Imports.{IsImportOrder, supplied, rules_into};
ghost use Rattle.mcs_system.specs.Repairs.{allowed_marks};
ghost use Rattle.mcs_import.specs.Plans.{AreSupplies};
ghost use Rattle.mcs_table.specs.declared.row.Row as rows;
ghost use Rattle.mcs_rows.specs.Answers.{answered_of};
ghost use Rattle.mcs_rows.specs.Changed.{IsChangedAt};
ghost use Rattle.mcs_rows.specs.Finding.{AreAscendingQuestions};
ghost use Rattle.mcs_rows.specs.Local.{AreAnswered};
ghost use Rattle.mcs_rows.specs.Making.{IsChangedRow};

use crate::answer::Answer;
use crate::finding::answer_to;
use crate::local::add_parts;
use crate::marks::marks_of;
use crate::states::input_states;
use mcs_base::{Active, Memory, Pair, Vars};
use mcs_import::Plan;
use mcs_system::System;
use mcs_table::{Row, Table};
use std::alloc::Global;

/// Adds the rows of context `i` of the state at its inputs with the answer to the rules that a pair
/// makes of those that apply, where the pair removes and forces these of the rules into the context.
fn add_changed(
    all: &mut Vec<Row>,
    system: &System,
    i: u32,
    state: Vars,
    answers: &[Answer],
    removed: Active,
    forced: Active,
) -> Result<(), Memory>
    requires in_range { i < length system.now.contexts }
    requires in_order { AreAscendingQuestions answers.now }
    ensures { IfOk result (λ _. (p : ℕ) → removed ≡ removed_of p
        → forced ≡ common (forced_of p) (rules_into system.now i)
        → (r : rows.Row) → IsAmong r all.new.items
        ↔ (IsAmong r all.old.items ⊎ IsChangedRow system.now i p answers.now state r)) }
{
    let applying = system.applicable(i, state);
    let acting = applying.minus(removed).union(forced);
    match answer_to(answers, acting) {
        Some(answer) => {
            let marks = marks_of(applying.minus(acting), acting.minus(applying));
            add_parts(all, system, i, state, marks, &answer.parts)
        }
        None => Ok(()),
    }
}

/// The rows of context `i` of each of the states, with the answer to the rules that the pair makes
/// of those that apply.
fn changed_in(
    alloc: Global,
    system: &System,
    i: u32,
    states: &[Vars],
    answers: &[Answer],
    pair: Pair,
) -> Result<Vec<Row>, Memory>
    requires in_range { i < length system.now.contexts }
    requires in_order { AreAscendingQuestions answers.now }
    ensures { IfOk result (λ all. (r : rows.Row) → IsAmong r all.items
        ↔ ((s : ℕ) × IsAmong s states.now × IsChangedRow system.now i pair answers.now s r)) }
{
    let removed = pair.removed();
    let forced = pair.forced().common(system.rules_of(i));
    let mut all = Vec::new(alloc);
    for state in states {
        add_changed(&mut all, system, i, *state, answers, removed, forced)?;
    }
    Ok(all)
}

/// The local rows of context `i` of the plan's system whose marks are the ones that the pair makes
/// of their state, as a table on its local variables. They are local rows of a level that is no
/// less than the number of the pair's marks. `supplies` are what the contexts of `plan.supplied(i)`
/// may supply at this level, in this order, each list in the order of states; `answers` are those
/// of `i` to all its questions of the level, ascending by the numbers that stand for them. Each
/// mark of the pair is one that a repair of the system may have.
pub fn changed_rows(
    alloc: Global,
    plan: &Plan,
    i: u32,
    supplies: &[Vec<Vars>],
    answers: &[Answer],
    pair: Pair,
) -> Result<Table, Memory>
    requires in_range { i < length plan.now.contexts }
    requires in_order { AreAscendingQuestions answers.now }
    requires allowed { Within pair (allowed_marks plan.now) }
    ensures { IfOk result (λ t. (level : ℕ) → size pair ≤ level
        → ((order : List ℕ) → IsImportOrder plan.now order
        → AreSupplies plan.now level (supplied plan.now order i)
        (map (λ supply. supply.items) supplies.now))
        → AreAnswered plan.now level i (map answered_of answers.now)
        → IsChangedAt plan.now level i pair t) }
{
    let system = plan.system();
    let states = input_states(alloc, plan, i, supplies)?;
    let all = changed_in(alloc, system, i, &states, answers, pair)?;
    Ok(Table::new(system.vars_of(i).union(system.inputs_of(i)), all))
}
