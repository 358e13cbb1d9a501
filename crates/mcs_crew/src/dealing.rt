//! Nodes on their way to the loads of their groups, and back.

ghost use Rattle.std.specs.Prelude.{◌≡◌, ◌<◌, ◌≤◌, ℕ, List, [], length, map, replicate};
ghost use Rattle.std.specs.Prelude.{vec_capacity, vec_len};
ghost use Rattle.std.specs.List.{AllByRecursion};
ghost use Rattle.mcs_node.specs.Nodes.{NodeData};
ghost use Rattle.mcs_crew.specs.Calls.{nodes_in, without_nodes};
ghost use Rattle.mcs_base.specs.Groups.{AreShapedAs, grouped};

use crate::load::Load;
use mcs_node::Node;
use mcs_states::Oracle;

/// Moves each node to the load of its group: that of context `i` to the load at `i` modulo the
/// number of loads.
pub(crate) fn deal<O: Oracle>(nodes: &mut Vec<Node<O>>, loads: &mut [Load<O>])
    requires some_load { 0 < length loads.old }
    requires empty { nodes_in loads.old ≡ replicate (length loads.old) [] }
    requires room { AllByRecursion (λ load. vec_len nodes.old ≤ vec_capacity load.team.nodes)
        loads.old }
    ensures dealt { nodes_in loads.new ≡ grouped (length loads.old) 0 nodes.old.items }
    ensures rest { map without_nodes loads.new ≡ map without_nodes loads.old }
    ensures none { nodes.new.items ≡ [] }
    ensures capacity { vec_capacity nodes.new ≡ vec_capacity nodes.old }
{
    while let Some(node) = nodes.pop() {
        let group = nodes.len() % loads.len();
        loads[group].team.nodes.push_reserved(node);
    }
}

/// Moves all nodes back, in order: so many as there are contexts.
pub(crate) fn collect<O: Oracle>(loads: &mut [Load<O>], nodes: &mut Vec<Node<O>>, contexts: usize)
    requires some_load { 0 < length loads.old }
    requires empty { nodes.old.items ≡ [] }
    requires room { contexts ≤ vec_capacity nodes.old }
    requires shape { (was : List NodeData) × (length was ≡ contexts)
        × AreShapedAs (grouped (length loads.old) 0 was) (nodes_in loads.old) }
    ensures dealt { nodes_in loads.old ≡ grouped (length loads.old) 0 nodes.new.items }
    ensures all { length nodes.new.items ≡ contexts }
    ensures rest { map without_nodes loads.new ≡ map without_nodes loads.old }
{
    for i in 0..contexts {
        let group = i % loads.len();
        match loads[group].team.nodes.pop() {
            Some(node) => nodes.push_reserved(node),
            None => unreachable!(),
        }
    }
}
