//! The equilibria of a system that a pair changes, of the tables of all contexts.

ghost use Rattle.std.specs.Prelude.{◌≡◌, ◌≤◌, ◌↔◌, ℕ, List, map, IfOk};
ghost use Rattle.std.specs.List.{AllByRecursion};
ghost use Rattle.mcs_sets.specs.Sets.{minus, size, Within};
ghost use Rattle.mcs_sets.specs.Orders.{StateBefore};
ghost use Rattle.mcs_base.specs.Listings.{IsAmong, IsListing};
ghost use Rattle.mcs_base.specs.Pairs.{removed_of, forced_of};
ghost use Rattle.mcs_system.specs.Repairs.{allowed_marks};
ghost use Rattle.mcs_system.specs.Systems.{all_rules, IsProjectedEquilibrium};
ghost use Rattle.mcs_table.specs.declared.row.Row as declared;
ghost use Rattle.mcs_table.specs.Joins.{IsJointRow};
ghost use Rattle.mcs_table.specs.Tables.{IsTable};
ghost use Rattle.mcs_rows.specs.Changed.{AreChangedAt};
ghost use Rattle.mcs_joint.specs.Apart.{EachApart};

use crate::reduce::reduced;
use mcs_base::{Memory, Pair, Vars, list_states};
use mcs_import::Plan;
use mcs_table::{Row, Table, union_states, unions};
use std::alloc::Global;

/// The projected equilibria of the plan's system that the pair changes, in the order of states: the
/// rules that it removes act only where it forces them, those that it forces act always. There is a
/// table for each context, in order, all of one level, which is no less than the number of the
/// pair's marks. Each has the local rows whose marks are the ones that the pair makes of their
/// state. Each mark of the pair is one that a repair of the system may have.
pub fn states_in(
    alloc: Global,
    plan: &Plan,
    tables: Vec<Table>,
    pair: Pair,
) -> Result<Vec<Vars>, Memory>
    requires allowed { Within pair (allowed_marks plan.now) }
    requires tables { (k : ℕ) × (size pair ≤ k) × AreChangedAt plan.now k pair tables.items }
    ensures { IfOk result (λ states. IsListing (IsProjectedEquilibrium plan.now
        (minus (all_rules plan.now) (removed_of pair)) (forced_of pair)) StateBefore states.items) }
{
    let level = pair.marks().count();
    let _bridges = plan.system().bridges();
    let fewer = reduced(alloc, tables, level)?;
    let mut states = united_states(alloc, &fewer, level)?;
    list_states(&mut states);
    Ok(states)
}

/// The values of each row.
pub(crate) fn values_of(alloc: Global, rows: &[Row]) -> Result<Vec<Vars>, Memory>
    ensures { IfOk result (λ all. all.items ≡ map (λ (r : declared.Row). r.state.values) rows.now) }
{
    let all = rows.iter().map(|row| row.state.values()).collect(alloc)?;
    Ok(all)
}

/// The states of the unions of one row of each of the tables that fit all together, one for each
/// union. The last table gives states alone, since there are most rows then.
fn united_states(alloc: Global, tables: &[Table], level: u32) -> Result<Vec<Vars>, Memory>
    requires tables { AllByRecursion IsTable tables.now }
    requires apart { EachApart tables.now }
    ensures { IfOk result (λ states. (all : List declared.Row)
        × ((r : declared.Row) → IsAmong r all ↔ IsJointRow level tables.now r)
        × (states.items ≡ map (λ (r : declared.Row). r.state.values) all)) }
{
    let unit = Table::unit(alloc)?;
    let mut all = Vec::from_slice(alloc, unit.rows())?;
    let mut seen = Vars::empty();
    for k in 0..tables.len() {
        let table = &tables[k];
        if k + 1 == tables.len() {
            let states = union_states(alloc, &all, seen, table, level)?;
            return Ok(states);
        }
        all = unions(alloc, &all, seen, table, level)?;
        seen = seen.union(table.scope());
    }
    let states = values_of(alloc, &all)?;
    Ok(states)
}
