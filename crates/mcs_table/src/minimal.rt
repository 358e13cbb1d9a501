//! The minimal rows: of those of one state, the ones with no other's marks within theirs.

ghost use Rattle.std.specs.Prelude.{◌≡◌, ◌≤◌, ◌↔◌, IsTrue, length, drop};
ghost use Rattle.std.specs.List.{AllByRecursion};
ghost use Rattle.mcs_base.specs.Listings.{IsAmong, IsAscending, IsListing};
ghost use Rattle.mcs_table.specs.RowOrder.{RowBefore, state_and_count};
ghost use Rattle.mcs_table.specs.Tables.{IsCovered, IsMinimalRow, IsTable};
ghost use Rattle.mcs_table.specs.declared.row.Row as declared;

use crate::row::Row;
use crate::table::Table;
use mcs_base::Vars;

/// The table of the minimal ones among these rows, each of which is on the variables of the scope.
/// It takes no memory.
pub fn minimal_table(scope: Vars, rows: Vec<Row>) -> Table
    requires { AllByRecursion (λ (r : declared.Row). r.state.mask ≡ scope) rows.items }
    ensures scope { result.scope ≡ scope }
    ensures rows { IsListing (IsMinimalRow (λ r. IsAmong r rows.items)) RowBefore result.rows }
    ensures kept { IsTable result }
{
    let mut rows = Table::new(scope, rows).into_rows();
    let mut kept = 0;
    for i in 0..rows.len() {
        let row = rows[i];
        if !is_covered(&rows[..kept], &row) {
            rows[kept] = row;
            kept += 1;
        }
    }
    rows.truncate(kept);
    Table::in_order(scope, rows)
}

/// Whether one of the kept rows has the state of the row, which comes after them, and marks within
/// its marks. Those of the same state with fewer marks are the last ones before those with as many.
fn is_covered(kept: &[Row], row: &Row) -> bool
    requires scope { AllByRecursion (λ (r : declared.Row). r.state.mask
        ≡ row.now.state.mask) kept.now }
    requires ascending { IsAscending RowBefore kept.now }
    requires after { AllByRecursion (λ (r : declared.Row). RowBefore r row.now) kept.now }
    ensures { IsTrue result ↔ IsCovered kept.now row.now }
{
    for i in (0..end_to_look_at(kept, row)).rev() {
        let other = &kept[i];
        if other.state != row.state {
            return false;
        }
        if other.marks.within(row.marks) {
            return true;
        }
    }
    false
}

/// So many rows of one state are gone through sooner than searched.
const FEW_ROWS: usize = 32;

/// How many of the kept rows are to be looked at for one that has the state of the row, which comes
/// after them, and marks within its marks: none of the others has both. Where there are many rows
/// of the state, those with as many marks as the row are left out.
fn end_to_look_at(kept: &[Row], row: &Row) -> usize
    requires ascending { IsAscending RowBefore kept.now }
    requires after { AllByRecursion (λ (r : declared.Row). RowBefore r row.now) kept.now }
    ensures bound { result ≤ length kept.now }
    ensures rest { ¬ IsCovered (drop result kept.now) row.now }
{
    match kept.len().checked_sub(FEW_ROWS) {
        Some(place) if kept[place].state == row.state => end_of_fewer(kept, row),
        _ => kept.len(),
    }
}

/// How many of the kept rows come before each one that has the state of the row, which comes after
/// them, and as many marks. None of the others has marks within its marks and its state.
fn end_of_fewer(kept: &[Row], row: &Row) -> usize
    requires ascending { IsAscending RowBefore kept.now }
    requires after { AllByRecursion (λ (r : declared.Row). RowBefore r row.now) kept.now }
    ensures bound { result ≤ length kept.now }
    ensures rest { ¬ IsCovered (drop result kept.now) row.now }
{
    let own = state_and_count(row);
    kept.partition_point(|other| state_and_count(other) < own)
}

/// The state of the row, and how many marks it has.
fn state_and_count(row: &Row) -> (Vars, u32)
    ensures { result ≡ state_and_count row.now }
{
    (row.state.values(), row.marks.count())
}
