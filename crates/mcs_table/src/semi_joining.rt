//! The rows of one table that a row of another can be joined with.

ghost use Rattle.std.specs.Prelude.{◌≡◌, ◌≤◌, ◌+◌, ◌↔◌, IfOk, IsTrue};
ghost use Rattle.mcs_sets.specs.Sets.{common, size};
ghost use Rattle.mcs_base.specs.Listings.{IsAmong};
ghost use Rattle.mcs_table.specs.Partners.{IsByShared};
ghost use Rattle.mcs_table.specs.Tables.{ShareNoMark, IsSemiJoin};
ghost use Rattle.mcs_table.specs.declared.row.Row as declared;

use crate::partners::{by_shared, partners};
use crate::row::Row;
use crate::table::Table;
use mcs_base::{Memory, Vars};
use std::alloc::Global;

/// Of the rows of the first of two tables, no mark of which occurs in the other, those that fit a
/// row of the second with which they have at most so many marks. Joined up to that number of marks,
/// both tables give the same with these rows alone.
pub fn semi_join(alloc: Global, a: &Table, b: &Table, level: u32) -> Result<Table, Memory>
    requires { ShareNoMark a.now.rows b.now.rows }
    ensures { IfOk result (IsSemiJoin a.now b.now level) }
{
    let (left, right) = (a.scope(), b.scope());
    let sorted = by_shared(alloc, b.rows(), left)?;
    let mut rows = Vec::new(alloc);
    for row in a.rows() {
        let shared = row.state.values().common(right);
        if has_partner(&sorted, left, shared, row.marks.count(), level) {
            rows.push(*row)?;
        }
    }
    Ok(Table::in_order(left, rows))
}

/// Whether, of rows that are sorted so, one says this of the scope, and has at most so many marks
/// together with the number of them that is there already.
fn has_partner(sorted: &[Row], scope: Vars, shared: Vars, count: u32, level: u32) -> bool
    requires { IsByShared scope sorted.now }
    ensures { IsTrue result ↔ ((r : declared.Row) × IsAmong r sorted.now
        × (common r.state.values scope ≡ shared) × (size r.marks + count ≤ level)) }
{
    match level.checked_sub(count) {
        Some(room) => !partners(sorted, scope, shared, room).is_empty(),
        None => false,
    }
}
