//! The cheapest diagnoses, as far as they have no more marks than a level says.

ghost use Rattle.std.specs.Prelude.{◌≤◌, ℕ, List, IfOk, MatchOption};
ghost use Rattle.mcs_sets.specs.Orders.{PairBefore};
ghost use Rattle.mcs_sets.specs.Sets.{size};
ghost use Rattle.mcs_base.specs.Listings.{IsListing};
ghost use Rattle.mcs_base.specs.Minimal.{IsMinimal};
ghost use Rattle.mcs_system.specs.Repairs.{IsDiagnosis};
ghost use Rattle.mcs_costs.specs.Costs.{cost, AreCheapest, IsCheapest, SettlesNone};
ghost use Rattle.mcs_rows.specs.Local.{AreFittingTables};
ghost use Rattle.mcs_elimination.specs.Eliminating.{AreDear, IsCostBound};
ghost use Rattle.mcs_elimination.specs.CheapestRows.{IsBelow};

use crate::cheapest::cheapest_in;
use crate::cheapest_rows::is_below;
use crate::lightest::bound_at;
use mcs_base::{Marks, Memory};
use mcs_costs::{least_cost, of_cost};
use mcs_import::Plan;
use mcs_system::System;
use mcs_table::Table;
use std::alloc::Global;

/// The cheapest diagnoses of the plan's system, all of them, in the order of pairs, if they cost
/// less than the bound of the level: a cost that any allowed marks, at most one of each rule, reach
/// of which there are more than the level says. If the level is at least the number of rules, there
/// is no bound, and they are always told.
///
/// `None` if no diagnosis costs less than the bound. Then none costs less than one mark more than
/// so many would at the least weight of a rule.
///
/// The tables are as for `cheapest_in`. The sets of marks that their rows need not contain are
/// `dear_marks` of the same level, or fewer.
pub fn cheapest_at(
    alloc: Global,
    plan: &Plan,
    tables: Vec<Table>,
    level: u32,
) -> Result<Option<Vec<Marks>>, Memory>
    requires { (k : ℕ) × (dear : List ℕ) × (level ≤ k) × AreDear plan.now level dear
        × AreFittingTables plan.now k dear tables.items }
    ensures { IfOk result (λ told. MatchOption told (SettlesNone plan.now level)
        (λ pairs. AreCheapest plan.now pairs.items)) }
{
    let below = bound_at(plan.system(), level);
    let pairs = cheapest_in(alloc, plan, tables, level, below)?;
    if below.is_some() && pairs.is_empty() {
        return Ok(None);
    }
    Ok(Some(pairs))
}

/// The same, of the minimal diagnoses with at most so many marks.
pub fn cheapest_among(
    alloc: Global,
    system: &System,
    pairs: &[Marks],
    level: u32,
) -> Result<Option<Vec<Marks>>, Memory>
    requires { IsListing (λ p. IsMinimal (IsDiagnosis system.now) p × (size p ≤ level)) PairBefore
        pairs.now }
    ensures { IfOk result (λ told. MatchOption told (SettlesNone system.now level)
        (λ cheapest. AreCheapest system.now cheapest.items)) }
{
    let below = bound_at(system, level);
    let cheapest = cheapest_below(alloc, system, pairs, level, below)?;
    if below.is_some() && cheapest.is_empty() {
        return Ok(None);
    }
    Ok(Some(cheapest))
}

/// Those of the minimal diagnoses with at most so many marks that are cheapest, if they cost less
/// than the bound of the level.
fn cheapest_below(
    alloc: Global,
    system: &System,
    pairs: &[Marks],
    level: u32,
    below: Option<u64>,
) -> Result<Vec<Marks>, Memory>
    requires pairs { IsListing (λ p. IsMinimal (IsDiagnosis system.now) p × (size p ≤ level))
        PairBefore pairs.now }
    requires bound { IsCostBound system.now level below }
    ensures { IfOk result (λ cheapest. IsListing (λ p. IsCheapest system.now p
        × IsBelow below (cost system.now p)) PairBefore cheapest.items) }
{
    let _bridges = system.bridges();
    let Some(least) = least_cost(system, pairs, None) else {
        return Ok(Vec::new(alloc));
    };
    if !is_below(least, below) {
        return Ok(Vec::new(alloc));
    }
    of_cost(alloc, system, pairs, least)
}
