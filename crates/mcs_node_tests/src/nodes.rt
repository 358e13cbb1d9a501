//! Two nodes that have begun a round, and what happens to them.

ghost use Rattle.std.specs.Prelude.{◌≡◌, ◌<◌, length};
ghost use Rattle.std.specs.Arc.{arc_value};

use mcs_base::Memory;
use mcs_import::Plan;
use mcs_node::{Handled, InTurn, Node};
use mcs_ports::IdleGate;
use mcs_solver::LocalSolver;
use mcs_system::System;
use std::alloc::Global;
use std::sync::Arc;

/// The nodes of the first two contexts of a system.
#[derive(Drop)]
pub(crate) struct Two {
    pub first: Node<LocalSolver>,
    pub second: Node<LocalSolver>,
}

/// The node of the context, which has begun the round of level 0.
fn begun(
    alloc: Global,
    system: &Arc<System>,
    context: u32,
    budget: u64,
) -> Result<Node<LocalSolver>, Memory>
    requires { context < length (arc_value system.now).contexts }
{
    let plan = Arc::new(alloc, Plan::of(alloc, system.clone()?)?)?;
    let solver = LocalSolver::new(alloc, system.clone()?, context, false);
    let mut node = Node::new(alloc, plan, context, budget, solver)?;
    match node.begin(alloc, 0) {
        Ok(()) => Ok(node),
        Err(want) => {
            drop(node);
            Err(want)
        }
    }
}

/// The nodes of the first two contexts, which have begun the round of level 0; `None` if there are
/// fewer.
pub(crate) fn begin_two(
    alloc: Global,
    system: &Arc<System>,
    budget: u64,
) -> Result<Option<Two>, Memory> {
    if system.contexts().len() < 2 {
        return Ok(None);
    }
    let first = begun(alloc, system, 0, budget)?;
    match begun(alloc, system, 1, budget) {
        Ok(second) => Ok(Some(Two { first, second })),
        Err(want) => {
            drop(first);
            Err(want)
        }
    }
}

/// Grants the node its need on top of the questions that were asked, if it waits for that; the
/// total then.
pub(crate) fn grant(alloc: Global, node: &mut Node<LocalSolver>, asked: u64) -> Option<u64> {
    let need = node.needs()?;
    let total = asked.checked_add(need)?;
    let gate = IdleGate;
    node.grant(alloc, total, &InTurn::new(&gate));
    Some(total)
}

/// Hands the next letter of the sender to the node, twice; `None` if there is none.
pub(crate) fn hand_twice(
    alloc: Global,
    sender: &mut Node<LocalSolver>,
    node: &mut Node<LocalSolver>,
) -> Result<Option<(Handled, Handled)>, Memory> {
    let Some(letter) = sender.next_out() else {
        return Ok(None);
    };
    match letter.copy() {
        Ok(again) => {
            let once = node.handle(alloc, letter);
            let twice = node.handle(alloc, again);
            Ok(Some((once, twice)))
        }
        Err(want) => {
            drop(letter);
            Err(want)
        }
    }
}
