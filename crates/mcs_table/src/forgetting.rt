//! Forgetting variables of a table.

ghost use Rattle.std.specs.Prelude.{◌≡◌, IfOk, map};
ghost use Rattle.mcs_table.specs.Tables.{IsForgetting, restricted_row};

use crate::minimal::minimal_table;
use crate::row::Row;
use crate::table::Table;
use mcs_base::{Memory, Vars};
use std::alloc::Global;

/// The table without the variables that are not to be kept. It has, for each state of the variables
/// that are left, what rows of the table say of them, without the ones that hold the marks of
/// another one.
pub fn forget(alloc: Global, t: &Table, keep: Vars) -> Result<Table, Memory>
    ensures { IfOk result (IsForgetting t.now keep) }
{
    let rows = restricted(alloc, t.rows(), keep)?;
    Ok(minimal_table(t.scope().common(keep), rows))
}

/// What each row says of the variables that are kept.
fn restricted(alloc: Global, rows: &[Row], keep: Vars) -> Result<Vec<Row>, Memory>
    ensures { IfOk result (λ all. all.items ≡ map (λ r. restricted_row r keep) rows.now) }
{
    let all = rows.iter().map(|row| row.restrict(keep)).collect(alloc)?;
    Ok(all)
}
