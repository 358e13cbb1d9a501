//! What is told of a system from the nodes of its contexts, once all questions of a level were
//! asked.

ghost use Rattle.std.specs.Prelude.{◌≡◌, ◌≤◌, ℕ, IfOk, Some, length, slice_get};
ghost use Rattle.mcs_sets.specs.Sets.{size, Within};
ghost use Rattle.mcs_system.specs.Plain.{System};
ghost use Rattle.mcs_system.specs.Repairs.{allowed_marks};
ghost use Rattle.mcs_states.specs.Evaluators.{AreRepairs, AreStates, IsStateOf};
ghost use Rattle.mcs_joint.specs.First.{TellsFirst};
ghost use Rattle.mcs_node.specs.Nodes.{IsNodeData, NodeData};
ghost use Rattle.mcs_mesh.specs.Players.{known_to};
ghost use Rattle.mcs_mesh.specs.Rounds.{AreDone, AreKnown};

use crate::nodes::NodeList;
use crate::tables::{changed_tables, minimal_tables};
use mcs_base::{Marks, Memory, Pair, Vars};
use mcs_import::Plan;
use mcs_joint::{first_state_in, repairs_in, states_in};
use mcs_node::Node;
use mcs_states::Oracle;
use std::alloc::Global;

/// The minimal diagnoses of the plan's system with at most so many marks, in the order of pairs:
/// what `repairs` of an evaluator answers. The nodes are those of the plan, one for each context,
/// in order, and all are done in one round of this level or a higher one. Stops only for want of
/// memory.
pub fn repairs_of<O: Oracle>(
    alloc: Global,
    plan: &Plan,
    nodes: &[Node<O>],
    level: u32,
) -> Result<Vec<Marks>, Memory>
    requires { AreDone plan.now level nodes.now }
    ensures { IfOk result (λ pairs. AreRepairs plan.now level pairs.items) }
{
    let done = level_known(nodes, level);
    let tables = minimal_tables(alloc, plan, done, nodes, &[])?;
    let pairs = repairs_in(alloc, plan, &tables, level, &[])?;
    Ok(pairs)
}

/// The projected equilibria of the plan's system that the pair changes, in the order of states:
/// what `states` of an evaluator answers. The nodes are those of the plan, one for each context, in
/// order, and all are done in one round whose level is no less than the number of the pair's marks.
/// Each of the marks is one that a repair of the system may have. Stops only for want of memory.
pub fn states_of<O: Oracle>(
    alloc: Global,
    plan: &Plan,
    nodes: &[Node<O>],
    pair: Pair,
) -> Result<Vec<Vars>, Memory>
    requires done { AreDone plan.now (size pair) nodes.now }
    requires allowed { Within pair (allowed_marks plan.now) }
    ensures { IfOk result (λ states. AreStates plan.now pair states.items) }
{
    look_at_each(nodes);
    let own = changed_tables(alloc, plan, nodes, pair)?;
    let states = states_in(alloc, plan, own, pair)?;
    Ok(states)
}

/// The level at which all is known of the contexts of nodes that are done in one round: that of the
/// round, or the least that it may have, if there are no nodes.
fn level_known<O: Oracle>(nodes: &[Node<O>], least: u32) -> u32
    ensures { (m : System) → AreDone m least nodes.now
        → (least ≤ result) × AreKnown m result (known_to nodes.now) }
{
    look_at_each(nodes);
    match nodes {
        [] => least,
        [first, ..] => first.level().unwrap_or(least),
    }
}

/// Looks at each node, and does nothing: what holds of every node is then known of each of these.
fn look_at_each<O: Oracle>(nodes: &[Node<O>])
    ensures { (i : ℕ) (d : NodeData) → slice_get nodes.now i ≡ Some d → IsNodeData d }
{
    for node in nodes {
        node.known();
    }
}

/// The equilibria of the plan's system that the pair changes, once all questions of a level were
/// asked that is no less than the number of the pair's marks.
pub(crate) fn changed_states<N: NodeList>(
    alloc: Global,
    plan: &Plan,
    nodes: &N,
    pair: Pair,
) -> Result<Vec<Vars>, Memory>
    requires one_each { length (N.seen nodes.now) ≡ length plan.now.contexts }
    requires known { (k : ℕ) × (size pair ≤ k) × AreKnown plan.now k (known_to (N.seen nodes.now)) }
    requires allowed { Within pair (allowed_marks plan.now) }
    ensures { IfOk result (λ states. AreStates plan.now pair states.items) }
{
    let own = nodes.changed_tables(alloc, plan, pair)?;
    let states = states_in(alloc, plan, own, pair)?;
    Ok(states)
}

/// The first of these equilibria; `None` exactly where there is none.
pub(crate) fn changed_first<N: NodeList>(
    alloc: Global,
    plan: &Plan,
    nodes: &N,
    pair: Pair,
) -> Result<Option<Vars>, Memory>
    requires one_each { length (N.seen nodes.now) ≡ length plan.now.contexts }
    requires known { (k : ℕ) × (size pair ≤ k) × AreKnown plan.now k (known_to (N.seen nodes.now)) }
    requires allowed { Within pair (allowed_marks plan.now) }
    ensures { IfOk result (TellsFirst (IsStateOf plan.now pair)) }
{
    let own = nodes.changed_tables(alloc, plan, pair)?;
    let first = first_state_in(alloc, plan, own, pair)?;
    Ok(first)
}
