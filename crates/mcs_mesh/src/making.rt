//! Nodes for the contexts of a plan, and their oracles back.

ghost use Rattle.std.specs.Prelude.{◌≡◌, IfOk, map, length};
ghost use Rattle.std.specs.Arc.{arc_value};
ghost use Rattle.mcs_mesh.specs.Players.{oracles_of};
ghost use Rattle.mcs_mesh.specs.Rounds.{AreFresh, AreNew};

use mcs_base::Memory;
use mcs_import::Plan;
use mcs_node::Node;
use mcs_states::Oracle;
use std::alloc::Global;
use std::sync::Arc;

/// A node for each context of the plan's system, within a budget of questions, with these oracles,
/// in order, of which none was asked.
pub fn nodes_of<O: Oracle>(
    alloc: Global,
    plan: &Arc<Plan>,
    budget: u64,
    oracles: Vec<O>,
) -> Result<Vec<Node<O>>, Memory>
    requires one_each { length oracles.items ≡ length (arc_value plan.now).contexts }
    requires own { AreFresh (arc_value plan.now) (map O.stands oracles.items) }
    ensures { IfOk result (λ nodes. AreNew (arc_value plan.now) budget
        (map O.stands oracles.items) nodes.items) }
{
    let mut nodes = Vec::with_capacity(alloc, plan.system().contexts().len())?;
    for oracle in oracles {
        let context = nodes.len() as u32;
        let plan = Arc::try_clone(plan)?;
        nodes.push(Node::new(alloc, plan, context, budget, oracle)?)?;
    }
    Ok(nodes)
}

/// The oracles of the nodes, in order.
pub(crate) fn oracles_in<O: Oracle>(alloc: Global, nodes: Vec<Node<O>>) -> Result<Vec<O>, Memory>
    ensures { IfOk result (λ oracles. map O.stands oracles.items ≡ oracles_of nodes.items) }
{
    let mut oracles = Vec::new(alloc);
    for node in nodes {
        oracles.push(node.take_oracle())?;
    }
    Ok(oracles)
}
