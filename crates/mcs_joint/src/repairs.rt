//! The minimal diagnoses with few marks, of the tables of all contexts.

ghost use Rattle.std.specs.Prelude.{◌≡◌, ◌≤◌, ◌++◌, ℕ, map, IfOk, IfSome};
ghost use Rattle.std.specs.List.{AllByRecursion, AllZip};
ghost use Rattle.mcs_sets.specs.Sets.{size};
ghost use Rattle.mcs_sets.specs.Orders.{PairBefore};
ghost use Rattle.mcs_base.specs.Listings.{IsAmong, IsListing};
ghost use Rattle.mcs_base.specs.Minimal.{IsMinimal};
ghost use Rattle.mcs_system.specs.Repairs.{IsDiagnosis};
ghost use Rattle.mcs_table.specs.declared.row.Row as declared;
ghost use Rattle.mcs_table.specs.Elimination.{still_kept, EliminatesTo};
ghost use Rattle.mcs_table.specs.Tables.{TableData, IsTable, ShareNoMark, IsJoin, IsForgetting};
ghost use Rattle.mcs_rows.specs.Local.{AreFittingTables};
ghost use Rattle.mcs_joint.specs.Apart.{EachApart};
ghost use Rattle.mcs_joint.specs.Reduced.{HasFewMarks};
ghost use Rattle.mcs_table.specs.Without.{IsWithout};

use crate::order::scopes;
use crate::reduce::reduced;
use mcs_base::{Marks, Memory, list_pairs};
use mcs_import::Plan;
use mcs_table::{Row, Table, forget, holds_one, join};
use std::alloc::Global;

/// So many times the rows of the tables are few, and so many besides.
const MOST_GROWTH: usize = 8;

const FEW_ROWS: usize = 256;

/// The minimal diagnoses of the plan's system that have at most so many marks, in the order of
/// pairs. Some of them may be known already, in any order: rows whose marks contain one of them
/// lead to no other one, and are left out as soon as they come about. There is a table for each
/// context, in some order, all of one level, which is this one or a higher one. Each has the
/// minimal local rows whose marks contain no known diagnosis; rows that are compatible with no row
/// of some table before it may be left out.
pub fn repairs_in(
    alloc: Global,
    plan: &Plan,
    tables: &[Table],
    level: u32,
    known: &[Marks],
) -> Result<Vec<Marks>, Memory>
    requires tables { (k : ℕ) × (level ≤ k) × AreFittingTables plan.now k known.now tables.now }
    requires known { AllByRecursion (λ p. IsMinimal (IsDiagnosis plan.now) p
        × (size p ≤ level)) known.now }
    ensures { IfOk result (λ pairs. IsListing (λ p. IsMinimal (IsDiagnosis plan.now) p
        × (size p ≤ level)) PairBefore pairs.items) }
{
    let most = level.min(plan.system().bridges().len() as u32);
    let few = few_tables(alloc, tables, most)?;
    let fewer = reduced(alloc, few, most)?;
    let left = eliminate(alloc, &fewer, most, known)?;
    let pairs = all_marks_of(alloc, &left, known)?;
    Ok(pairs)
}

/// The minimal diagnoses as `repairs_in` tells them, unless what is left after a join has far more
/// rows than the tables: then `None`, which says nothing of them.
pub fn few_repairs_in(
    alloc: Global,
    plan: &Plan,
    tables: &[Table],
    level: u32,
    known: &[Marks],
) -> Result<Option<Vec<Marks>>, Memory>
    requires tables { (k : ℕ) × (level ≤ k) × AreFittingTables plan.now k known.now tables.now }
    requires known { AllByRecursion (λ p. IsMinimal (IsDiagnosis plan.now) p
        × (size p ≤ level)) known.now }
    ensures { IfOk result (λ told. IfSome told (λ pairs. IsListing
        (λ p. IsMinimal (IsDiagnosis plan.now) p × (size p ≤ level)) PairBefore pairs.items)) }
{
    let most = level.min(plan.system().bridges().len() as u32);
    let few = few_tables(alloc, tables, most)?;
    let fewer = reduced(alloc, few, most)?;
    let Some(left) = eliminate_few(alloc, &fewer, most, known, most_rows(&fewer))? else {
        return Ok(None);
    };
    let pairs = all_marks_of(alloc, &left, known)?;
    Ok(Some(pairs))
}

/// The marks of the rows of the table and the other ones, in the order of pairs.
fn all_marks_of(alloc: Global, table: &Table, others: &[Marks]) -> Result<Vec<Marks>, Memory>
    ensures { IfOk result (λ all. IsListing (λ p. IsAmong p (map (λ (r : declared.Row). r.marks)
        table.now.rows ++ others.now)) PairBefore all.items) }
{
    let mut all = marks_of(alloc, table.rows())?;
    all.extend_from_slice(others)?;
    list_pairs(&mut all);
    Ok(all)
}

/// The marks of each row.
pub fn marks_of(alloc: Global, rows: &[Row]) -> Result<Vec<Marks>, Memory>
    ensures { IfOk result (λ all. all.items ≡ map (λ (r : declared.Row). r.marks) rows.now) }
{
    let all = rows.iter().map(|row| row.marks).collect(alloc)?;
    Ok(all)
}

/// Of each table the rows with at most so many marks.
fn few_tables(alloc: Global, tables: &[Table], level: u32) -> Result<Vec<Table>, Memory>
    ensures { IfOk result (λ few. AllZip (HasFewMarks level) tables.now few.items) }
{
    let mut found = Vec::new(alloc);
    for table in tables {
        let few = few_rows(alloc, table, level)?;
        found.push(few)?;
    }
    Ok(found)
}

/// The rows of the table with at most so many marks.
fn few_rows(alloc: Global, table: &Table, level: u32) -> Result<Table, Memory>
    ensures { IfOk result (HasFewMarks level table.now) }
{
    let mut rows = Vec::new(alloc);
    for row in table.rows() {
        if row.marks.count() <= level {
            rows.push(*row)?;
        }
    }
    Ok(Table::in_order(table.scope(), rows))
}

/// What is left of the tables where they are joined one after the other, and what no later table
/// has is forgotten after each join, without the rows whose marks hold one of some sets. Those are
/// left out after each join, since no row without one comes of them.
pub(crate) fn eliminate(
    alloc: Global,
    tables: &[Table],
    level: u32,
    sets: &[Marks],
) -> Result<Table, Memory>
    requires tables { AllByRecursion IsTable tables.now }
    requires apart { EachApart tables.now }
    ensures { IfOk result (λ t. (whole : TableData) × EliminatesTo level 0 tables.now whole
        × IsWithout sets.now whole t) }
{
    let unit = Table::unit(alloc)?;
    let mut left = without(unit, sets);
    for k in 0..tables.len() {
        left = eliminate_next(alloc, &left, &tables[k], &tables[k + 1..], level, sets)?;
    }
    Ok(left)
}

/// What is left of the tables as `eliminate` tells it, or `None` if more rows than so many are left
/// after a join.
fn eliminate_few(
    alloc: Global,
    tables: &[Table],
    level: u32,
    sets: &[Marks],
    most: usize,
) -> Result<Option<Table>, Memory>
    requires tables { AllByRecursion IsTable tables.now }
    requires apart { EachApart tables.now }
    ensures { IfOk result (λ told. IfSome told (λ t. (whole : TableData)
        × EliminatesTo level 0 tables.now whole × IsWithout sets.now whole t)) }
{
    let unit = Table::unit(alloc)?;
    let mut left = without(unit, sets);
    for k in 0..tables.len() {
        left = eliminate_next(alloc, &left, &tables[k], &tables[k + 1..], level, sets)?;
        if left.rows().len() > most {
            return Ok(None);
        }
    }
    Ok(Some(left))
}

/// So many rows may be left after a join of these tables at most, where few are looked for.
fn most_rows(tables: &[Table]) -> usize {
    let mut rows: usize = 0;
    for table in tables {
        rows = rows.saturating_add(table.rows().len());
    }
    rows.saturating_mul(MOST_GROWTH).saturating_add(FEW_ROWS)
}

/// Joins what is left of earlier tables with the next one, leaves out the rows whose marks hold one
/// of the sets, and forgets what no later table has.
fn eliminate_next(
    alloc: Global,
    left: &Table,
    next: &Table,
    later: &[Table],
    level: u32,
    sets: &[Marks],
) -> Result<Table, Memory>
    requires { ShareNoMark left.now.rows next.now.rows }
    ensures { IfOk result (λ t. (joined : TableData) × (fewer : TableData)
        × IsJoin left.now next.now level joined
        × IsWithout sets.now joined fewer × IsForgetting fewer (still_kept 0 later.now) t) }
{
    let joined = join(alloc, left, next, level)?;
    let fewer = without(joined, sets);
    let rest = forget(alloc, &fewer, scopes(later))?;
    Ok(rest)
}

/// The rows of the table whose marks hold none of the sets. It takes no memory.
fn without(table: Table, sets: &[Marks]) -> Table
    ensures { IsWithout sets.now table result }
{
    let scope = table.scope();
    let mut rows = table.into_rows();
    rows.retain(|row| !holds_one(row.marks, sets));
    Table::in_order(scope, rows)
}
