//! The minimal local rows of a context.

ghost use Rattle.std.specs.Prelude.{◌≡◌, ◌<◌, ℕ, List, map, length, IfOk};
ghost use Rattle.std.specs.List.{AllByRecursion};
ghost use Rattle.mcs_base.specs.Antichains.{HasOneWithin};
ghost use Rattle.mcs_base.specs.Listings.{IsAmong};
ghost use Rattle.mcs_system.specs.Imports.{IsImportOrder, supplied};
ghost use Rattle.mcs_import.specs.Plans.{AreSupplies};
ghost use Rattle.mcs_table.specs.Tables.{Covers};
ghost use Rattle.mcs_rows.specs.Answers.{answered_of};
ghost use Rattle.mcs_rows.specs.Local.{AreAnswered, IsFittingTable};
ghost use Rattle.mcs_rows.specs.Making.{agrees, row_with};
ghost use Rattle.mcs_rows.specs.Nearest.{AppliesAt, AreOfRules, IsRowIn, IsRowOfOne, IsRowWith};
ghost use Rattle.mcs_rows.specs.Reach.{IsReach};
ghost use Rattle.mcs_rows.specs.declared.nearest.Near as near;

use crate::answer::Answer;
use crate::fitting::{fitting_answers, fitting_states};
use crate::local::{Reach, hold_known, known_of, reach_of, row};
use crate::nearest::{Near, Supported, nearest, supported_in};
use crate::states::input_states;
use mcs_base::{Active, Marks, Memory, Vars};
use mcs_import::Plan;
use mcs_system::System;
use mcs_table::{Row, Table, minimal_table};
use std::alloc::Global;

/// A state at the inputs of a context, and the rules into the context that apply in it.
#[derive(Drop)]
struct Applied {
    state: Vars,
    rules: Active,
}

/// Whether the part and the state at the inputs of context `i` say the same of those that are its own
/// variables.
fn agrees(system: &System, i: u32, state: Vars, part: Vars) -> bool
    requires { i < length system.now.contexts }
    ensures { result ≡ agrees system.now i state part }
{
    part.common(system.inputs_of(i)) == state.common(system.vars_of(i))
}

/// The rows of context `i` of the state at its inputs with the part, which agrees with it, and with
/// the marks of each of these changes.
fn rows_of_each(
    alloc: Global,
    system: &System,
    i: u32,
    state: Vars,
    part: Vars,
    changes: &[Near],
) -> Result<Vec<Row>, Memory>
    requires { i < length system.now.contexts }
    ensures { IfOk result (λ rows. rows.items
        ≡ map (λ (n : near.Near). row_with system.now i state n.marks part) changes.now) }
{
    let local = system.vars_of(i).union(system.inputs_of(i));
    let mut rows = Vec::new(alloc);
    for near in changes {
        rows.push(row(local, part.union(state), near.marks))?;
    }
    Ok(rows)
}

/// Rows of context `i` of the state at its inputs with the part, if it agrees with the state: for
/// each question to which it is accepted, and that is in reach, one whose marks lie within those
/// that it takes to come to the question.
fn rows_with(
    alloc: Global,
    system: &System,
    i: u32,
    at: &Applied,
    one: &Supported,
    reach: &Reach,
) -> Result<Vec<Row>, Memory>
    requires in_range { i < length system.now.contexts }
    requires applied { AppliesAt system.now i at.now.state at.now.rules reach.now }
    requires of_rules { AreOfRules system.now i one.now }
    requires new { ¬ HasOneWithin reach.now.known.now 0 }
    ensures { IfOk result (λ rows. Covers (λ r. IsAmong r rows.items)
        (IsRowWith system.now i reach.now.level reach.now.known.now at.now.state one.now)) }
{
    if !agrees(system, i, at.state, one.part) {
        return Ok(Vec::new(alloc));
    }
    let changes = nearest(alloc, &one.questions, at.rules, reach)?;
    rows_of_each(alloc, system, i, at.state, one.part, &changes)
}

/// The same with each of the parts.
fn rows_at(
    alloc: Global,
    system: &System,
    i: u32,
    state: Vars,
    all: &[Supported],
    reach: &Reach,
) -> Result<Vec<Row>, Memory>
    requires in_range { i < length system.now.contexts }
    requires reach { IsReach system.now reach.now }
    requires of_rules { AllByRecursion (AreOfRules system.now i) all.now }
    requires new { ¬ HasOneWithin reach.now.known.now 0 }
    ensures { IfOk result (λ rows. Covers (λ r. IsAmong r rows.items)
        (IsRowOfOne system.now i reach.now.level reach.now.known.now state all.now)) }
{
    let at = Applied {
        state,
        rules: system.applicable(i, state),
    };
    let mut rows = Vec::new(alloc);
    for one in all {
        let some = rows_with(alloc, system, i, &at, one, reach)?;
        rows.extend_from_slice(&some)?;
    }
    Ok(rows)
}

/// The same for each of the states, one after the other.
fn rows_in(
    alloc: Global,
    system: &System,
    i: u32,
    states: &[Vars],
    all: &[Supported],
    reach: &Reach,
) -> Result<Vec<Row>, Memory>
    requires in_range { i < length system.now.contexts }
    requires reach { IsReach system.now reach.now }
    requires of_rules { AllByRecursion (AreOfRules system.now i) all.now }
    ensures { IfOk result (λ rows. Covers (λ r. IsAmong r rows.items)
        (IsRowIn system.now i reach.now.level reach.now.known.now states.now all.now)) }
{
    let mut rows = Vec::new(alloc);
    if hold_known(Marks::empty(), reach) {
        return Ok(rows);
    }
    for state in states {
        let some = rows_at(alloc, system, i, *state, all, reach)?;
        rows.extend_from_slice(&some)?;
    }
    Ok(rows)
}

/// The minimal local rows of context `i` of the plan's system at the level, as a table on its local
/// variables, as far as a final step with the other tables needs them. A local row has a state that
/// the context accepts, and allowed marks, at most `level`, with which it accepts it. A row is
/// minimal if no other row of its state has marks within its own. Rows whose marks contain a known
/// set are left out. A row that is compatible with no row of one of the other tables may be left
/// out. `supplies` are what the contexts of
/// `plan.supplied(i)` may supply at this level, in this order, each list in the order of states.
/// `answers` are those of `i` to all its questions of the level, ascending by the numbers that
/// stand for them.
pub fn minimal_rows(
    alloc: Global,
    plan: &Plan,
    i: u32,
    supplies: &[Vec<Vars>],
    answers: &[Answer],
    level: u32,
    known: &[Marks],
    others: &[Table],
) -> Result<Table, Memory>
    requires in_range { i < length plan.now.contexts }
    requires supplied { (order : List ℕ) → IsImportOrder plan.now order
        → AreSupplies plan.now level (supplied plan.now order i)
        (map (λ supply. supply.items) supplies.now) }
    requires answered { AreAnswered plan.now level i (map answered_of answers.now) }
    ensures { IfOk result (IsFittingTable plan.now level i known.now others.now) }
{
    let system = plan.system();
    let states = input_states(alloc, plan, i, supplies)?;
    let states = fitting_states(alloc, states, system.inputs_of(i), others)?;
    let fitting = fitting_answers(alloc, answers, system.vars_of(i), others)?;
    let supported = supported_in(alloc, &fitting)?;
    let near = known_of(alloc, system, i, known)?;
    let reach = reach_of(system, level, &near);
    let all = rows_in(alloc, system, i, &states, &supported, &reach)?;
    Ok(minimal_table(system.vars_of(i).union(system.inputs_of(i)), all))
}
