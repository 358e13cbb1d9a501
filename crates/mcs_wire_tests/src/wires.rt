//! Wires in one thread.

ghost use Rattle.std.specs.Prelude.{◌≡◌, [], None};
ghost use Rattle.mcs_node.specs.Letters.{IsTrueLetter, content_of};
ghost use Rattle.mcs_node.specs.Nodes.{IsAbove};

use crate::letters::{plan_of_two, system_of_two};
use mcs_base::Memory;
use mcs_import::Plan;
use mcs_node::{Content, InTurn, Letter, Node};
use mcs_ports::IdleGate;
use mcs_solver::LocalSolver;
use mcs_system::System;
use mcs_wire::{Ends, Settled, settle, wire};
use std::alloc::Global;
use std::sync::{Arc, Wait};

/// A new wire of the plan, settled; `None` if something was in it.
fn settled<R: Wait>(rt: &R, alloc: Global, plan: Arc<Plan>) -> Result<Option<Settled>, Memory> {
    let Ends { address, mut inbox } = wire(alloc, plan, 1, 3)?;
    match inbox.try_take(rt) {
        None => Ok(Some(settle(rt, alloc, address, inbox)?)),
        taken => {
            drop((taken, address, inbox));
            Ok(None)
        }
    }
}

/// Whether nothing is in a new wire of the plan, and nothing was when it is settled.
fn is_empty<R: Wait>(rt: &R, alloc: Global) -> bool {
    let Some(plan) = plan_of_two(alloc) else {
        return false;
    };
    let settled = settled(rt, alloc, plan);
    let is_empty = match &settled {
        Ok(Some(settled)) => {
            settled.sent() == 0 && settled.got() == 0 && settled.left().is_empty()
        }
        _ => false,
    };
    drop(settled);
    is_empty
}

#[test]
fn nothing_is_in_a_new_wire(rt: HostRuntime) {
    assert!(rt; is_empty(&rt, rt.alloc()));
}

/// Grants the node its need, if it waits for that; the need then.
fn grant(alloc: Global, node: &mut Node<LocalSolver>) -> Option<u64> {
    let need = node.needs()?;
    let gate = IdleGate;
    node.grant(alloc, need, &InTurn::new(&gate));
    Some(need)
}

/// The first letter that the node puts out at level 0; `None` if it puts out none.
fn first_out(alloc: Global, node: &mut Node<LocalSolver>) -> Result<Option<Letter>, Memory>
    requires going { node.old.state.halt ≡ None }
    requires above { IsAbove node.old.level 0 }
{
    node.begin(alloc, 0)?;
    grant(alloc, node);
    Ok(node.next_out())
}

/// The first letter that the first context puts out at level 0; `None` if it puts out none.
fn supply(alloc: Global, system: Arc<System>) -> Result<Option<Letter>, Memory> {
    if system.contexts().is_empty() {
        return Ok(None);
    }
    let plan = Arc::new(alloc, Plan::of(alloc, system.clone()?)?)?;
    let solver = LocalSolver::new(alloc, system, 0, false);
    let mut node = Node::new(alloc, plan, 0, 1, solver)?;
    let first = first_out(alloc, &mut node);
    drop(node);
    first
}

/// How many states the supply lists. What it says has to be true.
fn states_listed(letter: &Letter, content: &Content) -> Option<usize>
    requires content { content_of content.now ≡ letter.now.content }
    requires truth { IsTrueLetter letter.now }
{
    match content {
        Content::Supply(states) => Some(states.len()),
        Content::Stop(_) => None,
    }
}

/// How many states the letter lists once it went through the wire, of which both ends are new.
fn states_taken<R: Wait>(rt: &R, ends: Ends, letter: Letter) -> Option<usize>
    requires plan { letter.plan ≡ ends.address.wire.plan }
    requires none { ends.address.sent ≡ [] }
{
    let Ends {
        mut address,
        mut inbox,
    } = ends;
    address.send(rt, letter);
    let taken = inbox.take(rt);
    let listed = states_listed(&taken, taken.content());
    drop((taken, address, inbox));
    listed
}

/// How many states the letter lists once it went through a wire of the plan; `None` if it names
/// another plan.
fn states_through_wire<R: Wait>(
    rt: &R,
    alloc: Global,
    plan: Arc<Plan>,
    letter: Letter,
) -> Result<Option<usize>, Memory> {
    if !letter.plan().is(&plan) {
        drop((plan, letter));
        return Ok(None);
    }
    match wire(alloc, plan, 1, 1) {
        Ok(ends) => Ok(states_taken(rt, ends, letter)),
        Err(want) => {
            drop(letter);
            Err(want)
        }
    }
}

/// Whether the letter lists the one state of the first context once it went through a wire.
fn is_true_when_taken<R: Wait>(rt: &R, alloc: Global) -> bool {
    let (Some(plan), Some(system)) = (plan_of_two(alloc), system_of_two(alloc)) else {
        return false;
    };
    match supply(alloc, system) {
        Ok(Some(letter)) => states_through_wire(rt, alloc, plan, letter) == Ok(Some(1)),
        _ => false,
    }
}

#[test]
fn what_a_taken_letter_says_is_true(rt: HostRuntime) {
    assert!(rt; is_true_when_taken(&rt, rt.alloc()));
}
