//! Joining two tables.

ghost use Rattle.std.specs.Prelude.{◌≡◌, ◌↔◌, ◌++◌, List, map, IfOk, IsTrue, OnOk};
ghost use Rattle.std.specs.List.{AllByRecursion};
ghost use Rattle.mcs_sets.specs.Sets.{union};
ghost use Rattle.mcs_base.specs.Listings.{IsAmong};
ghost use Rattle.mcs_base.specs.Partials.{Fits};
ghost use Rattle.mcs_table.specs.Joins.{union_of};
ghost use Rattle.mcs_table.specs.Tables.{ShareNoMark, IsJoin, IsRowOn, IsUnion, united_row};
ghost use Rattle.mcs_table.specs.declared.row.Row as declared;

use crate::minimal::minimal_table;
use crate::partners::{by_shared, partners};
use crate::row::Row;
use crate::table::Table;
use mcs_base::{Marks, Memory, Vars};
use std::alloc::Global;

/// The join of two tables of which no mark of the one occurs in the other, up to a number of marks.
/// It is on the variables of both. It has, for each state, the unions of a row of each that fit and
/// have at most so many marks, without those that hold the marks of another one.
pub fn join(alloc: Global, a: &Table, b: &Table, level: u32) -> Result<Table, Memory>
    requires { ShareNoMark a.now.rows b.now.rows }
    ensures { IfOk result (IsJoin a.now b.now level) }
{
    let (left, right) = (a.scope(), b.scope());
    let unions = unions(alloc, a.rows(), left, b, level)?;
    Ok(minimal_table(left.union(right), unions))
}

/// The unions of a row that is on the variables of a scope with one of the table that fits it, no
/// mark of which occurs in it, up to a number of marks. Each is there as often as it comes about.
pub fn unions(
    alloc: Global,
    rows: &[Row],
    scope: Vars,
    t: &Table,
    level: u32,
) -> Result<Vec<Row>, Memory>
    requires on_scope { AllByRecursion (IsRowOn scope) rows.now }
    requires apart { ShareNoMark rows.now t.now.rows }
    ensures { IfOk result (λ all. (r : declared.Row)
        → IsAmong r all.items ↔ IsUnion rows.now t.now.rows level r) }
{
    let right = t.scope();
    let sorted = by_shared(alloc, t.rows(), scope)?;
    let mut unions = Vec::new(alloc);
    for row in rows {
        if let Some(room) = level.checked_sub(row.marks.count()) {
            let shared = row.state.values().common(right);
            push_unions(&mut unions, row, partners(&sorted, scope, shared, room))?;
        }
    }
    Ok(unions)
}

/// The states of the unions that `unions` gives, one for each, without the marks: they take a third
/// of the memory.
pub fn union_states(
    alloc: Global,
    rows: &[Row],
    scope: Vars,
    t: &Table,
    level: u32,
) -> Result<Vec<Vars>, Memory>
    requires on_scope { AllByRecursion (IsRowOn scope) rows.now }
    requires apart { ShareNoMark rows.now t.now.rows }
    ensures { IfOk result (λ states. (all : List declared.Row)
        × ((r : declared.Row) → IsAmong r all ↔ IsUnion rows.now t.now.rows level r)
        × (states.items ≡ map (λ (r : declared.Row). r.state.values) all)) }
{
    let right = t.scope();
    let sorted = by_shared(alloc, t.rows(), scope)?;
    let mut states = Vec::new(alloc);
    for row in rows {
        let count = row.marks.count();
        if let Some(room) = level.checked_sub(count) {
            let values = row.state.values();
            let shared = values.common(right);
            push_states(&mut states, values, partners(&sorted, scope, shared, room))?;
        }
    }
    Ok(states)
}

/// Whether no mark of the one table occurs in the other, as `join` asks. It takes no memory.
pub fn are_apart(a: &Table, b: &Table) -> bool
    ensures { IsTrue result ↔ ShareNoMark a.now.rows b.now.rows }
{
    !all_marks(a.rows()).meets(all_marks(b.rows()))
}

/// The marks of all of the rows.
fn all_marks(rows: &[Row]) -> Marks
    ensures { result ≡ union_of (λ (r : declared.Row). r.marks) rows.now }
{
    let mut marks = Marks::empty();
    for row in rows {
        marks = marks.union(row.marks);
    }
    marks
}

/// Adds the union of the row with each of its partners.
fn push_unions(unions: &mut Vec<Row>, row: &Row, partners: &[Row]) -> Result<(), Memory>
    requires { AllByRecursion (λ (r : declared.Row). Fits row.now.state r.state) partners.now }
    ensures { OnOk result (unions.new.items
        ≡ unions.old.items ++ map (united_row row.now) partners.now) }
{
    for partner in partners {
        unions.push(row.union(partner))?;
    }
    Ok(())
}

/// Adds the union of the state with that of each of the rows.
fn push_states(states: &mut Vec<Vars>, state: Vars, partners: &[Row]) -> Result<(), Memory>
    ensures { OnOk result (states.new.items
        ≡ states.old.items ++ map (λ (r : declared.Row). union state r.state.values) partners.now) }
{
    for partner in partners {
        states.push(state.union(partner.state.values()))?;
    }
    Ok(())
}
