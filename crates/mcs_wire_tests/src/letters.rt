//! A plan of two contexts, and letters between them.

ghost use Rattle.std.specs.Prelude.{◌≡◌, IfOk, IfSome};
ghost use Rattle.std.specs.Arc.{arc_value};
ghost use Rattle.mcs_node.specs.Rounds.{Supplies};
ghost use Rattle.mcs_wire.specs.Wires.{AllName};

use mcs_base::Memory;
use mcs_import::Plan;
use mcs_language::read_system;
use mcs_node::Letter;
use mcs_states::Halt;
use mcs_system::System;
use std::alloc::Global;
use std::sync::Arc;

/// The second context is told what the first one believes.
const TOLD: &str = "context c1 program { a. } context c2 program {} bridge r1: c2:p if c1:a.";

/// A system of two contexts, of which the first supplies the second, if there is memory for it.
pub(crate) fn system_of_two(alloc: Global) -> Option<Arc<System>> {
    match read_system(alloc, TOLD.as_bytes()) {
        Ok(system) => Arc::new(alloc, system).ok(),
        Err(_) => None,
    }
}

/// Its plan, if there is memory for it.
pub(crate) fn plan_of_two(alloc: Global) -> Option<Arc<Plan>> {
    let system = system_of_two(alloc)?;
    match Plan::of(alloc, system) {
        Ok(plan) => Arc::new(alloc, plan).ok(),
        Err(_) => None,
    }
}

/// A context that supplies the second one; `None` if none does.
fn supplier(plan: &Plan) -> Option<u32>
    ensures { IfSome result (λ from. Supplies plan.now from 1) }
{
    if plan.system().contexts().len() < 2 {
        return None;
    }
    let Some(from) = plan.supplied(1).first() else {
        return None;
    };
    Some(*from)
}

/// A letter to the second context, in the round of the level, that says that memory ran out; `None`
/// if no context supplies it.
fn stop(plan: &Arc<Plan>, level: u32) -> Result<Option<Letter>, Memory>
    ensures { IfOk result (λ stop. IfSome stop (λ letter. letter.plan ≡ arc_value plan.now)) }
{
    let Some(from) = supplier(plan) else {
        return Ok(None);
    };
    let shared = Arc::try_clone(plan)?;
    Ok(Some(Letter::stop(shared, level, from, 1, Halt::Memory)))
}

/// Such letters, of each level from the first one on.
pub(crate) fn stops(
    alloc: Global,
    plan: &Arc<Plan>,
    first: u32,
    count: u32,
) -> Result<Vec<Letter>, Memory>
    ensures { IfOk result (λ letters. AllName (arc_value plan.now) letters.items) }
{
    let mut letters = Vec::new(alloc);
    for i in 0..count {
        if let Some(letter) = stop(plan, first.saturating_add(i))? {
            letters.push(letter)?;
        }
    }
    Ok(letters)
}
