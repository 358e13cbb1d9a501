//! Rows that no joint row has a part in go before tables are joined.

ghost use Rattle.std.specs.Prelude.{◌≡◌, ◌<◌, length, IfOk, IsTrue, OnOk};
ghost use Rattle.mcs_joint.specs.Apart.{EachApart};
ghost use Rattle.mcs_joint.specs.Reduced.{IsReduced};

use crate::order::put_in_order;
use mcs_base::Memory;
use mcs_table::{Table, semi_join};
use std::alloc::Global;

/// The tables in the order in which they are joined, without rows that fit no row of another table
/// with which theirs shares variables. They have the same joint rows. Each round takes away what
/// the rounds before have left without a partner; where the tables are shaped as a tree, the rows
/// that are left are those of joint rows, as far as states go.
pub fn reduced(alloc: Global, tables: Vec<Table>, level: u32) -> Result<Vec<Table>, Memory>
    requires { EachApart tables.items }
    ensures { IfOk result (λ fewer. IsReduced level tables.items fewer.items) }
{
    let mut tables = tables;
    put_in_order(&mut tables);
    for _ in 0..tables.len() {
        if !reduce_each(alloc, &mut tables, level)? {
            break;
        }
    }
    Ok(tables)
}

/// Takes away, of each table in turn, the rows without a partner in another one, and where some
/// went, again in the other direction. Whether some went in the end.
fn reduce_each(alloc: Global, tables: &mut Vec<Table>, level: u32) -> Result<bool, Memory>
    requires { EachApart tables.old.items }
    ensures { OnOk result (IsReduced level tables.old.items tables.new.items) }
{
    let some = reduce_forth(alloc, tables, level)?;
    if !some {
        return Ok(false);
    }
    let more = reduce_back(alloc, tables, level)?;
    Ok(more)
}

/// Takes away, of each table from the first to the last, the rows without a partner in another one.
/// Whether some went.
fn reduce_forth(alloc: Global, tables: &mut Vec<Table>, level: u32) -> Result<bool, Memory>
    requires { EachApart tables.old.items }
    ensures { OnOk result (IsReduced level tables.old.items tables.new.items) }
{
    let mut some = false;
    for i in 0..tables.len() {
        let went = reduce_by_all(alloc, tables, i, level)?;
        some |= went;
    }
    Ok(some)
}

/// The same from the last to the first.
fn reduce_back(alloc: Global, tables: &mut Vec<Table>, level: u32) -> Result<bool, Memory>
    requires { EachApart tables.old.items }
    ensures { OnOk result (IsReduced level tables.old.items tables.new.items) }
{
    let mut some = false;
    let count = tables.len();
    for k in 0..count {
        let went = reduce_by_all(alloc, tables, count - 1 - k, level)?;
        some |= went;
    }
    Ok(some)
}

/// Takes away the rows of a table without a partner in one of the others that share variables with
/// it. Whether some went.
fn reduce_by_all(
    alloc: Global,
    tables: &mut Vec<Table>,
    i: usize,
    level: u32,
) -> Result<bool, Memory>
    requires apart { EachApart tables.old.items }
    requires in_range { i < length tables.old.items }
    ensures { OnOk result (IsReduced level tables.old.items tables.new.items) }
{
    let mut some = false;
    for j in 0..tables.len() {
        if are_linked(tables, i, j) {
            let went = reduce_by(alloc, tables, i, j, level)?;
            some |= went;
        }
    }
    Ok(some)
}

/// Whether these are two tables that share variables.
fn are_linked(tables: &[Table], i: usize, j: usize) -> bool
    requires first_in_range { i < length tables.now }
    requires second_in_range { j < length tables.now }
    ensures { IsTrue result → ¬ (i ≡ j) }
{
    i != j && tables[i].scope().meets(tables[j].scope())
}

/// Takes away the rows of a table without a partner in another one. Whether some went.
fn reduce_by(
    alloc: Global,
    tables: &mut Vec<Table>,
    i: usize,
    j: usize,
    level: u32,
) -> Result<bool, Memory>
    requires apart { EachApart tables.old.items }
    requires first_in_range { i < length tables.old.items }
    requires second_in_range { j < length tables.old.items }
    requires differ { ¬ (i ≡ j) }
    ensures { OnOk result (IsReduced level tables.old.items tables.new.items) }
{
    let fewer = semi_join(alloc, &tables[i], &tables[j], level)?;
    let some = fewer.rows().len() < tables[i].rows().len();
    tables[i] = fewer;
    Ok(some)
}
