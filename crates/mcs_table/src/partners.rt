//! The rows of one table that a row of another can be joined with, found by what both tables speak
//! of.

ghost use Rattle.std.specs.Prelude.{◌≡◌, ◌≤◌, ◌↔◌, IfOk, length};
ghost use Rattle.std.specs.List.Sorted.{IsPermutation};
ghost use Rattle.mcs_sets.specs.Sets.{common, size};
ghost use Rattle.mcs_base.specs.Listings.{IsAmong};
ghost use Rattle.mcs_table.specs.Partners.{shared_key, is_below, is_up_to, PassingEndsAt};
ghost use Rattle.mcs_table.specs.Partners.{IsByShared};
ghost use Rattle.mcs_table.specs.declared.row.Row as declared;

use crate::row::Row;
use mcs_base::{Memory, Vars};
use std::alloc::Global;

/// The rows, sorted by what they say of the variables of a scope, and then by how many marks they
/// have.
pub(crate) fn by_shared(alloc: Global, rows: &[Row], scope: Vars) -> Result<Vec<Row>, Memory>
    ensures moved { IfOk result (λ sorted. IsPermutation rows.now sorted.items) }
    ensures sorted { IfOk result (λ sorted. IsByShared scope sorted.items) }
{
    let mut sorted = Vec::from_slice(alloc, rows)?;
    sorted.sort_unstable_by_key(|row| key(row, scope));
    Ok(sorted)
}

/// Of rows that are sorted so, those that say this of the scope and have at most so many marks.
pub(crate) fn partners(sorted: &[Row], scope: Vars, shared: Vars, room: u32) -> &[Row]
    requires { IsByShared scope sorted.now }
    ensures { (r : declared.Row) → IsAmong r result.now
        ↔ (IsAmong r sorted.now × (common r.state.values scope ≡ shared) × (size r.marks ≤ room)) }
{
    let from = end_below(sorted, scope, (shared, 0));
    let to = end_up_to(sorted, scope, (shared, room));
    &sorted[from..to]
}

/// How many of the sorted rows have a key below this one.
fn end_below(sorted: &[Row], scope: Vars, most: (Vars, u32)) -> usize
    requires { IsByShared scope sorted.now }
    ensures bound { result ≤ length sorted.now }
    ensures point { PassingEndsAt (is_below scope most) sorted.now result }
{
    sorted.partition_point(|row| key(row, scope) < most)
}

/// How many of the sorted rows have a key that is not above this one.
fn end_up_to(sorted: &[Row], scope: Vars, most: (Vars, u32)) -> usize
    requires { IsByShared scope sorted.now }
    ensures bound { result ≤ length sorted.now }
    ensures point { PassingEndsAt (is_up_to scope most) sorted.now result }
{
    sorted.partition_point(|row| key(row, scope) <= most)
}

/// What the row says of the variables of a scope, and how many marks it has.
fn key(row: &Row, scope: Vars) -> (Vars, u32)
    ensures { result ≡ shared_key scope row.now }
{
    (row.state.values().common(scope), row.marks.count())
}
