//! The cheapest diagnoses, of the tables of all contexts.

ghost use Rattle.std.specs.Prelude.{◌≡◌, ◌*◌, ◌≤◌, ℕ, List, length, IfOk};
ghost use Rattle.mcs_sets.specs.Orders.{PairBefore};
ghost use Rattle.mcs_base.specs.Listings.{IsListing};
ghost use Rattle.mcs_system.specs.Faults.{IsValid};
ghost use Rattle.mcs_costs.specs.Costs.{cost, IsCheapest};
ghost use Rattle.mcs_table.specs.Elimination.{still_kept};
ghost use Rattle.mcs_table.specs.Tables.{TableData, IsJoin, IsForgetting};
ghost use Rattle.mcs_rows.specs.Local.{AreFittingTables};
ghost use Rattle.mcs_elimination.specs.CheapestRows.{HasCheapest, HasCheapestMarks, IsBelow};
ghost use Rattle.mcs_elimination.specs.Eliminating.{AreReaching, CanEliminate, CanJoin, IsCostBound};

use crate::cheapest_rows::cheapest_rows;
use mcs_base::{Marks, Memory, list_pairs};
use mcs_import::Plan;
use mcs_joint::{marks_of, reduced, scopes};
use mcs_system::System;
use mcs_table::{Table, forget, join};
use std::alloc::Global;

/// The cheapest diagnoses of the plan's system, in the order of pairs, if they cost less than the
/// bound; otherwise none. Any allowed marks, at most one of each rule, of which there are more than
/// the level says reach the bound, if there is one. No minimal diagnosis has both marks of a rule,
/// so one that costs less has at most so many marks. Without a bound the level is at least the
/// number of rules.
///
/// There is a table for each context, in some order, all of one level, which is this one or a
/// higher one. Each has the minimal local rows. Rows that are compatible with no row of some table
/// before it may be left out, and so may rows that contain one of some sets of marks, each of which
/// costs the bound or more.
///
/// No list of minimal diagnoses is made: costs of different contexts add up, so of the rows of one
/// state only those of least cost are joined further (bucket elimination, Dechter 1999).
pub fn cheapest_in(
    alloc: Global,
    plan: &Plan,
    tables: Vec<Table>,
    level: u32,
    below: Option<u64>,
) -> Result<Vec<Marks>, Memory>
    requires tables { (k : ℕ) × (dear : List ℕ) × (level ≤ k) × AreReaching plan.now below dear
        × AreFittingTables plan.now k dear tables.items }
    requires bound { IsCostBound plan.now level below }
    ensures { IfOk result (λ pairs. IsListing (λ p. IsCheapest plan.now p
        × IsBelow below (cost plan.now p)) PairBefore pairs.items) }
{
    let system = plan.system();
    let most = count_marks(system);
    let fewer = reduced(alloc, tables, most)?;
    let left = eliminate(alloc, system, &fewer, most, below)?;
    let mut pairs = marks_of(alloc, left.rows())?;
    list_pairs(&mut pairs);
    Ok(pairs)
}

/// How many marks the rules of the system have.
fn count_marks(system: &System) -> u32
    ensures count { result ≡ 2 * length system.now.bridges }
    ensures valid { IsValid system.now }
{
    2 * system.bridges().len() as u32
}

/// What is left of the tables where they are joined one after the other, what no later table has is
/// forgotten after each join, and then only the rows are kept that cost the least for their state.
fn eliminate(
    alloc: Global,
    system: &System,
    tables: &[Table],
    level: u32,
    below: Option<u64>,
) -> Result<Table, Memory>
    requires { CanEliminate system.now level tables.now }
    ensures { IfOk result (HasCheapestMarks (cost system.now) below level tables.now) }
{
    let unit = Table::unit(alloc)?;
    let mut left = cheapest_rows(alloc, system, &unit, below)?;
    for k in 0..tables.len() {
        let later = &tables[k + 1..];
        left = eliminate_next(alloc, system, &left, &tables[k], later, level, below)?;
    }
    Ok(left)
}

/// Joins what is left of earlier tables with the next one, forgets what no later table has, and
/// keeps the rows that cost the least for their state.
fn eliminate_next(
    alloc: Global,
    system: &System,
    left: &Table,
    next: &Table,
    later: &[Table],
    level: u32,
    below: Option<u64>,
) -> Result<Table, Memory>
    requires { CanJoin system.now left.now next.now }
    ensures { IfOk result (λ t. (joined : TableData) × (rest : TableData)
        × IsJoin left.now next.now level joined
        × IsForgetting joined (still_kept 0 later.now) rest
        × HasCheapest (cost system.now) below rest t) }
{
    let joined = join(alloc, left, next, level)?;
    let rest = forget(alloc, &joined, scopes(later))?;
    let kept = cheapest_rows(alloc, system, &rest, below)?;
    Ok(kept)
}
