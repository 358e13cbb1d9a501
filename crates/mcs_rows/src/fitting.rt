//! What fits the tables that were made before.

ghost use Rattle.std.specs.Prelude.{◌≡◌, ◌↔◌, ℕ, IfOk};
ghost use Rattle.std.specs.List.{AllZip};
ghost use Rattle.mcs_base.specs.Listings.{IsAscending};
ghost use Rattle.mcs_sets.specs.Orders.{StateBefore};
ghost use Rattle.mcs_table.specs.Fitting.{AreFittingStates};
ghost use Rattle.mcs_rows.specs.Fitting.{HasFittingParts, HasProjectedParts, HasSameParts};

use crate::answer::Answer;
use mcs_base::{Memory, Vars};
use mcs_table::{Table, projections_of, states_with};
use std::alloc::Global;

/// Whether the table may rule out states on the variables: its scope has some of these, or it has
/// no rows.
fn may_restrict(table: &Table, variables: Vars) -> bool {
    table.rows().is_empty() || table.scope().meets(variables)
}

/// Of the states those that fit a row of each of the tables on the variables, and maybe more of
/// them.
pub(crate) fn fitting_states(
    alloc: Global,
    states: Vec<Vars>,
    variables: Vars,
    tables: &[Table],
) -> Result<Vec<Vars>, Memory>
    ensures { IfOk result (λ kept. AreFittingStates variables tables.now states.items kept.items) }
{
    let mut kept = states;
    for table in tables {
        if may_restrict(table, variables) {
            let projections = projections_of(alloc, table, variables)?;
            kept = states_with(alloc, &kept, &projections, variables.common(table.scope()))?;
        }
    }
    Ok(kept)
}

/// The answers, each with a copy of its parts.
fn copies(alloc: Global, answers: &[Answer]) -> Result<Vec<Answer>, Memory>
    ensures { IfOk result (λ all. AllZip HasSameParts answers.now all.items) }
{
    let mut all = Vec::new(alloc);
    for answer in answers {
        let parts = Vec::from_slice(alloc, &answer.parts)?;
        all.push(Answer {
            active: answer.active,
            parts,
        })?;
    }
    Ok(all)
}

/// The answers, each with those of its parts whose projection onto a set of variables is among
/// `projections`; these are in the order of states, each once.
fn answers_with(
    alloc: Global,
    answers: &[Answer],
    projections: &[Vars],
    set: Vars,
) -> Result<Vec<Answer>, Memory>
    requires { IsAscending StateBefore projections.now }
    ensures { IfOk result (λ all. AllZip (HasProjectedParts projections.now set) answers.now
        all.items) }
{
    let mut all = Vec::new(alloc);
    for answer in answers {
        let parts = states_with(alloc, &answer.parts, projections, set)?;
        all.push(Answer {
            active: answer.active,
            parts,
        })?;
    }
    Ok(all)
}

/// The answers, each with those of its parts that fit a row of each of the tables on the variables,
/// and maybe more of them.
pub(crate) fn fitting_answers(
    alloc: Global,
    answers: &[Answer],
    variables: Vars,
    tables: &[Table],
) -> Result<Vec<Answer>, Memory>
    ensures { IfOk result (λ kept. AllZip (HasFittingParts variables tables.now) answers.now
        kept.items) }
{
    let mut kept = copies(alloc, answers)?;
    for table in tables {
        if may_restrict(table, variables) {
            let projections = projections_of(alloc, table, variables)?;
            kept = answers_with(alloc, &kept, &projections, variables.common(table.scope()))?;
        }
    }
    Ok(kept)
}
