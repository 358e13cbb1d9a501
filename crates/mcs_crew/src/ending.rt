//! How a round ended.

ghost use Rattle.std.specs.Prelude.{◌≡◌, ◌⊎◌, true, false, Some, IfErr, IfNone, IfOk, IfSome};
ghost use Rattle.std.specs.Prelude.{IsTrue};
ghost use Rattle.std.specs.List.{AllByRecursion};
ghost use Rattle.mcs_node.specs.Nodes.{IsNodeData};
ghost use Rattle.mcs_node.specs.Replay.{IsLowestHalt};
ghost use Rattle.mcs_crew.specs.Trails.{IsDoneNode, IsHaltOf, IsMemory, states_of};

use mcs_node::Node;
use mcs_states::{Halt, Oracle};

/// Whether the node is done.
fn is_done<O: Oracle>(node: &Node<O>) -> bool
    ensures { IsTrue result → IsDoneNode node.now }
{
    node.known();
    node.is_done()
}

/// Whether every node is done.
fn are_done<O: Oracle>(nodes: &[Node<O>]) -> bool
    ensures { IsTrue result → AllByRecursion IsDoneNode nodes.now }
{
    for node in nodes {
        if !is_done(node) {
            return false;
        }
    }
    true
}

/// The halt of the node, if it stopped by itself.
fn own_halt<O: Oracle>(node: &Node<O>) -> Option<Halt>
    ensures some { IfSome result (λ halt. (node.now.state.by_itself ≡ true)
        × (node.now.state.halt ≡ Some halt)) }
    ensures none { IfNone result (node.now.state.by_itself ≡ false) }
    ensures node { IsNodeData node.now }
{
    node.known();
    if !node.by_itself() {
        return None;
    }
    node.stopped()
}

/// The halt of the lowest of the nodes that stopped by itself.
fn lowest_halt<O: Oracle>(nodes: &[Node<O>]) -> Option<Halt>
    ensures halt { IsLowestHalt (states_of nodes.now) result }
    ensures node { IfSome result (IsHaltOf nodes.now) }
{
    for node in nodes {
        if let Some(halt) = own_halt(node) {
            return Some(halt);
        }
    }
    None
}

/// How a round ended that has this total: with it if every node is done, else with the halt of the
/// lowest node that stopped by itself. If there is none, with want of memory.
pub(crate) fn ending<O: Oracle>(nodes: &[Node<O>], total: u64) -> Result<u64, Halt>
    ensures done { IfOk result (λ n. (n ≡ total) × AllByRecursion IsDoneNode nodes.now) }
    ensures halt { IfErr result (λ halt. IsMemory halt
        ⊎ (IsHaltOf nodes.now halt × IsLowestHalt (states_of nodes.now) (Some halt))) }
{
    if are_done(nodes) {
        return Ok(total);
    }
    match lowest_halt(nodes) {
        Some(halt) => Err(halt),
        None => Err(Halt::Memory),
    }
}
