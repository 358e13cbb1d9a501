//! What contexts may supply, as the final steps take it.

ghost use Rattle.std.specs.Prelude.{◌≡◌, ◌<◌, ℕ, List, IfOk, map, length};
ghost use Rattle.mcs_system.specs.Imports.{IsImportOrder, supplied};
ghost use Rattle.mcs_mesh.specs.Players.{known_to};
ghost use Rattle.mcs_mesh.specs.Rounds.{supplies_at};

use mcs_base::{Memory, Vars};
use mcs_import::Plan;
use mcs_node::Node;
use mcs_states::Oracle;
use std::alloc::Global;

/// What the contexts that supply context `i` may supply, in the import order.
pub(crate) fn supplies_for<O: Oracle>(
    alloc: Global,
    plan: &Plan,
    i: u32,
    nodes: &[Node<O>],
) -> Result<Vec<Vec<Vars>>, Memory>
    requires in_range { i < length plan.now.contexts }
    requires one_each { length nodes.now ≡ length plan.now.contexts }
    ensures { IfOk result (λ told. (order : List ℕ) → IsImportOrder plan.now order
        → map (λ supply. supply.items) told.items
        ≡ supplies_at (known_to nodes.now) (supplied plan.now order i)) }
{
    let mut told = Vec::new(alloc);
    for j in plan.supplied(i) {
        let known = nodes[*j as usize].known();
        told.push(copied(alloc, &known.supplies)?)?;
    }
    Ok(told)
}

/// The states, in a list of their own.
fn copied(alloc: Global, states: &[Vars]) -> Result<Vec<Vars>, Memory>
    ensures { IfOk result (λ copy. copy.items ≡ states.now) }
{
    let mut copy = Vec::new(alloc);
    copy.extend_from_slice(states)?;
    Ok(copy)
}
