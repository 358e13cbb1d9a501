//! The first equilibrium of a system that a pair changes, of the tables of all contexts, without a
//! list of all.

ghost use Rattle.std.specs.Prelude.{◌≡◌, ◌≤◌, ◌<◌, ◌↔◌, ℕ, List, map, IfOk, IfSome, IsTrue};
ghost use Rattle.std.specs.List.{AllByRecursion, AllZip};
ghost use Rattle.mcs_sets.specs.Sets.{minus, single, size, Within};
ghost use Rattle.mcs_base.specs.Listings.{IsAmong};
ghost use Rattle.mcs_base.specs.Pairs.{removed_of, forced_of};
ghost use Rattle.mcs_system.specs.Repairs.{allowed_marks};
ghost use Rattle.mcs_system.specs.Systems.{all_rules, IsProjectedEquilibrium};
ghost use Rattle.mcs_table.specs.declared.row.Row as declared;
ghost use Rattle.mcs_table.specs.Joins.{IsJointRow};
ghost use Rattle.mcs_table.specs.Tables.{IsTable};
ghost use Rattle.mcs_rows.specs.Changed.{AreChangedAt};
ghost use Rattle.mcs_joint.specs.Apart.{EachApart};
ghost use Rattle.mcs_joint.specs.First.{TellsFirst, IsJointState, HaveJointRow, valued, IsNarrowed};
ghost use Rattle.mcs_joint.specs.First.{IsVariableSettled};

use crate::order::scopes;
use crate::reduce::reduced;
use crate::repairs::eliminate;
use crate::states::values_of;
use mcs_base::{Memory, Pair, Partial, Vars, state_before};
use mcs_import::Plan;
use mcs_table::{Table, matching, unions};
use std::alloc::Global;

/// So many unions of rows with those of a table are made at most to take the least of them.
const MOST_UNIONS: usize = 4096;

/// The first of the projected equilibria of the plan's system that the pair changes; `None` exactly
/// where there is none. The pair and the tables are as for `states_in`. Where there are many states
/// they are not listed: the variables are settled one after the other.
pub fn first_state_in(
    alloc: Global,
    plan: &Plan,
    tables: Vec<Table>,
    pair: Pair,
) -> Result<Option<Vars>, Memory>
    requires allowed { Within pair (allowed_marks plan.now) }
    requires tables { (k : ℕ) × (size pair ≤ k) × AreChangedAt plan.now k pair tables.items }
    ensures { IfOk result (TellsFirst (IsProjectedEquilibrium plan.now
        (minus (all_rules plan.now) (removed_of pair)) (forced_of pair))) }
{
    let level = pair.marks().count();
    let _bridges = plan.system().bridges();
    let first = first_joint(alloc, tables, level)?;
    Ok(first)
}

/// The first of the states of the joint rows of the tables; `None` exactly where they have none.
fn first_joint(alloc: Global, tables: Vec<Table>, level: u32) -> Result<Option<Vars>, Memory>
    requires tables { AllByRecursion IsTable tables.items }
    requires apart { EachApart tables.items }
    ensures { IfOk result (TellsFirst (IsJointState level tables.items)) }
{
    let fewer = reduced(alloc, tables, level)?;
    if let Some(states) = few_states(alloc, &fewer, level)? {
        return Ok(least_of(&states));
    }
    let first = settled_state(alloc, fewer, level)?;
    Ok(first)
}

/// The states of the unions of one row of each of the tables that fit all together, one for each
/// union, in no order; `None` where more unions than `MOST_UNIONS` may come about with some table.
fn few_states(alloc: Global, tables: &[Table], level: u32) -> Result<Option<Vec<Vars>>, Memory>
    requires tables { AllByRecursion IsTable tables.now }
    requires apart { EachApart tables.now }
    ensures { IfOk result (λ found. IfSome found (λ states. (all : List declared.Row)
        × ((r : declared.Row) → IsAmong r all ↔ IsJointRow level tables.now r)
        × (states.items ≡ map (λ (r : declared.Row). r.state.values) all))) }
{
    let unit = Table::unit(alloc)?;
    let mut all = Vec::from_slice(alloc, unit.rows())?;
    let mut seen = Vars::empty();
    for table in tables {
        if all.len().saturating_mul(table.rows().len()) > MOST_UNIONS {
            return Ok(None);
        }
        all = unions(alloc, &all, seen, table, level)?;
        seen = seen.union(table.scope());
    }
    let states = values_of(alloc, &all)?;
    Ok(Some(states))
}

/// The least of the states; `None` exactly where there is none.
fn least_of(states: &[Vars]) -> Option<Vars>
    ensures { TellsFirst (λ σ. IsAmong σ states.now) result }
{
    let mut least = *states.first()?;
    for state in states {
        if state_before(*state, least) {
            least = *state;
        }
    }
    Some(least)
}

/// The first of the states of the joint rows of the tables, by settling one variable after the
/// other; `None` exactly where they have no joint row.
fn settled_state(alloc: Global, tables: Vec<Table>, level: u32) -> Result<Option<Vars>, Memory>
    requires tables { AllByRecursion IsTable tables.items }
    requires apart { EachApart tables.items }
    ensures { IfOk result (TellsFirst (IsJointState level tables.items)) }
{
    if !have_joint_row(alloc, &tables, level)? {
        return Ok(None);
    }
    let mut left = tables;
    let mut first = Vars::empty();
    for variable in 0..64 {
        let holds = settle(alloc, &mut left, variable, level)?;
        if holds {
            first = first.with(variable);
        }
    }
    Ok(Some(first))
}

/// Leaves the rows in which the variable is true, where the tables then still have a joint row;
/// else those in which it is false. Whether it is true in what is left.
fn settle(alloc: Global, tables: &mut Vec<Table>, variable: u32, level: u32) -> Result<bool, Memory>
    requires few { variable < 64 }
    requires tables { AllByRecursion IsTable tables.old.items }
    requires apart { EachApart tables.old.items }
    ensures { IfOk result (λ holds. IsVariableSettled level variable holds tables.old.items
        tables.new.items) }
{
    if !scopes(tables).has(variable) {
        return Ok(false);
    }
    let holding = narrowed(alloc, tables, variable, true)?;
    if have_joint_row(alloc, &holding, level)? {
        *tables = holding;
        return Ok(true);
    }
    *tables = narrowed(alloc, tables, variable, false)?;
    Ok(false)
}

/// Whether the tables have a joint row.
fn have_joint_row(alloc: Global, tables: &[Table], level: u32) -> Result<bool, Memory>
    requires tables { AllByRecursion IsTable tables.now }
    requires apart { EachApart tables.now }
    ensures { IfOk result (λ some. IsTrue some ↔ HaveJointRow level tables.now) }
{
    let left = eliminate(alloc, tables, level, &[])?;
    Ok(!left.rows().is_empty())
}

/// Of each table the rows that do not speak of the variable or give it this value.
fn narrowed(
    alloc: Global,
    tables: &[Table],
    variable: u32,
    value: bool,
) -> Result<Vec<Table>, Memory>
    requires few { variable < 64 }
    ensures { IfOk result (λ all. AllZip (IsNarrowed (valued variable value)) tables.now
        all.items) }
{
    let settled = one_value(variable, value);
    let mut all = Vec::new(alloc);
    for table in tables {
        let rows = matching(alloc, table, &settled)?;
        all.push(Table::in_order(table.scope(), rows))?;
    }
    Ok(all)
}

/// The state that gives this variable alone a value.
fn one_value(variable: u32, value: bool) -> Partial
    requires { variable < 64 }
    ensures { result ≡ valued variable value }
{
    let mask = Vars::one(variable);
    let values = if value { mask } else { Vars::empty() };
    Partial::new(mask, values)
}
