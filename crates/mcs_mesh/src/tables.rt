//! The tables of all contexts, as the final steps take them.

ghost use Rattle.std.specs.Prelude.{◌≡◌, ◌<◌, ◌≤◌, ℕ, IfOk, length};
ghost use Rattle.std.specs.List.{range_with_len};
ghost use Rattle.std.specs.List.Sorted.{IsPermutation};
ghost use Rattle.mcs_sets.specs.Sets.{size, Within};
ghost use Rattle.mcs_system.specs.Repairs.{allowed_marks};
ghost use Rattle.mcs_rows.specs.Changed.{AreChangedAt};
ghost use Rattle.mcs_rows.specs.Local.{AreFittingTables};
ghost use Rattle.mcs_mesh.specs.Players.{known_to};
ghost use Rattle.mcs_mesh.specs.Rounds.{AreKnown};

use crate::supplies::supplies_for;
use mcs_base::{Marks, Memory, Pair};
use mcs_import::Plan;
use mcs_node::Node;
use mcs_rows::{changed_rows, minimal_rows};
use mcs_states::Oracle;
use mcs_table::Table;
use std::alloc::Global;

/// How many rows the table of context `i` may come to, as far as the number of its answers and of
/// its inputs tells.
fn most_rows<O: Oracle>(plan: &Plan, i: u32, nodes: &[Node<O>]) -> u64
    requires in_range { i < length plan.now.contexts }
    requires one_each { length nodes.now ≡ length plan.now.contexts }
{
    let inputs = plan.system().inputs_of(i).count().min(63);
    let known = nodes[i as usize].known();
    (known.answers.len() as u64).saturating_mul(1 << inputs)
}

/// How many rows the table of each context may come to.
fn sizes<O: Oracle>(alloc: Global, plan: &Plan, nodes: &[Node<O>]) -> Result<Vec<u64>, Memory>
    requires { length nodes.now ≡ length plan.now.contexts }
{
    let mut sizes = Vec::new(alloc);
    for i in 0..plan.system().contexts().len() as u32 {
        sizes.push(most_rows(plan, i, nodes))?;
    }
    Ok(sizes)
}

/// All contexts, by their numbers.
fn all_contexts(alloc: Global, plan: &Plan) -> Result<Vec<u32>, Memory>
    ensures { IfOk result (λ all. all.items ≡ range_with_len 0 (length plan.now.contexts)) }
{
    let count = plan.system().contexts().len() as u32;
    let all = (0..count).collect(alloc)?;
    Ok(all)
}

/// All contexts, in the order in which their tables are made. Those of few rows come first, since a
/// later table needs no row that is compatible with none of an earlier one. Of two that may have
/// equally many, the one that is first in the import order comes first.
fn order_of_making<O: Oracle>(
    alloc: Global,
    plan: &Plan,
    nodes: &[Node<O>],
) -> Result<Vec<u32>, Memory>
    requires { length nodes.now ≡ length plan.now.contexts }
    ensures { IfOk result (λ order. IsPermutation
        (range_with_len 0 (length plan.now.contexts)) order.items) }
{
    let sizes = sizes(alloc, plan, nodes)?;
    let mut order = all_contexts(alloc, plan)?;
    order.sort_unstable_by_key(|i| {
        let place = plan.order().iter().position(|j| j == i);
        (sizes.get(*i as usize).copied(), place)
    });
    Ok(order)
}

/// A table for each context, in some order, once all questions of the level were asked. It has the
/// minimal ones of the local rows whose marks contain none of the pairs, at least those that are
/// compatible with a row of each table before.
pub(crate) fn minimal_tables<O: Oracle>(
    alloc: Global,
    plan: &Plan,
    level: u32,
    nodes: &[Node<O>],
    pairs: &[Marks],
) -> Result<Vec<Table>, Memory>
    requires one_each { length nodes.now ≡ length plan.now.contexts }
    requires known { AreKnown plan.now level (known_to nodes.now) }
    ensures { IfOk result (λ tables. AreFittingTables plan.now level pairs.now tables.items) }
{
    let order = order_of_making(alloc, plan, nodes)?;
    let mut tables = Vec::new(alloc);
    for i in &order {
        let told = supplies_for(alloc, plan, *i, nodes)?;
        let known = nodes[*i as usize].known();
        let table = minimal_rows(
            alloc,
            plan,
            *i,
            &told,
            &known.answers,
            level,
            pairs,
            &tables,
        )?;
        tables.push(table)?;
    }
    Ok(tables)
}

/// Of the local rows of each context those whose marks are the ones that the pair makes of their
/// state, once all questions of a level were asked that is no less than the number of the pair's
/// marks.
pub(crate) fn changed_tables<O: Oracle>(
    alloc: Global,
    plan: &Plan,
    nodes: &[Node<O>],
    pair: Pair,
) -> Result<Vec<Table>, Memory>
    requires one_each { length nodes.now ≡ length plan.now.contexts }
    requires known { (k : ℕ) × (size pair ≤ k) × AreKnown plan.now k (known_to nodes.now) }
    requires allowed { Within pair (allowed_marks plan.now) }
    ensures { IfOk result (λ tables. (k : ℕ) × (size pair ≤ k)
        × AreChangedAt plan.now k pair tables.items) }
{
    let mut tables = Vec::new(alloc);
    for i in 0..plan.system().contexts().len() as u32 {
        let told = supplies_for(alloc, plan, i, nodes)?;
        let known = nodes[i as usize].known();
        let table = changed_rows(alloc, plan, i, &told, &known.answers, pair)?;
        tables.push(table)?;
    }
    Ok(tables)
}
