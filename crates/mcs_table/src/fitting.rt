//! The rows that fit a partial state, and the states that fit a row.

ghost use Rattle.std.specs.Prelude.{◌≡◌, ◌↔◌, ℕ, map, IfOk, IsTrue};
ghost use Rattle.mcs_base.specs.Listings.{IsAmong, IsAscending, IsListing};
ghost use Rattle.mcs_base.specs.Partials.{Fits};
ghost use Rattle.mcs_sets.specs.Orders.{StateBefore};
ghost use Rattle.mcs_sets.specs.Sets.{common};
ghost use Rattle.mcs_table.specs.Fitting.{IsRowProjection};
ghost use Rattle.mcs_table.specs.RowOrder.{RowBefore};
ghost use Rattle.mcs_table.specs.declared.row.Row as declared;

use crate::row::Row;
use crate::table::Table;
use mcs_base::{Memory, Partial, Vars, list_states};
use std::alloc::Global;

/// The rows of the table that fit the partial state, in order.
pub fn matching(alloc: Global, t: &Table, partial: &Partial) -> Result<Vec<Row>, Memory>
    ensures { IfOk result (λ rows. IsListing (λ r. IsAmong r t.now.rows × Fits r.state partial.now)
        RowBefore rows.items) }
{
    let mut found = Vec::new(alloc);
    for row in t.rows() {
        if row.state.fits(partial) {
            found.push(*row)?;
        }
    }
    Ok(found)
}

/// The projection of each row's state onto the variables of a set, row by row.
fn project_rows(alloc: Global, rows: &[Row], set: Vars) -> Result<Vec<Vars>, Memory>
    ensures { IfOk result (λ projections. projections.items
        ≡ map (λ (r : declared.Row). common r.state.values set) rows.now) }
{
    let projections = rows
        .iter()
        .map(|row| row.state.values().common(set))
        .collect(alloc)?;
    Ok(projections)
}

/// The projections of the states of the table's rows onto a set of variables, each once, in the
/// order of states.
pub fn projections_of(alloc: Global, t: &Table, set: Vars) -> Result<Vec<Vars>, Memory>
    ensures { IfOk result (λ projections. IsListing
        (IsRowProjection t.now.rows set) StateBefore projections.items) }
{
    let mut projections = project_rows(alloc, t.rows(), set)?;
    list_states(&mut projections);
    Ok(projections)
}

/// Whether the projection of the state onto a set of variables is among these; they are in the
/// order of states, each once.
fn is_projection(projections: &[Vars], state: Vars, set: Vars) -> bool
    requires { IsAscending StateBefore projections.now }
    ensures { IsTrue result ↔ IsAmong (common state set) projections.now }
{
    projections.binary_search(&state.common(set)).is_ok()
}

/// The states whose projection onto a set of variables is among `projections`; these are in the
/// order of states, each once.
pub fn states_with(
    alloc: Global,
    states: &[Vars],
    projections: &[Vars],
    set: Vars,
) -> Result<Vec<Vars>, Memory>
    requires { IsAscending StateBefore projections.now }
    ensures { IfOk result (λ kept. (s : ℕ)
        → IsAmong s kept.items ↔ (IsAmong s states.now × IsAmong (common s set) projections.now)) }
{
    let mut kept = Vec::new(alloc);
    for state in states {
        if is_projection(projections, *state, set) {
            kept.push(*state)?;
        }
    }
    Ok(kept)
}
