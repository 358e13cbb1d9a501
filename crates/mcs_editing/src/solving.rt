//! The whole listing of a system, by oracles that come back.

ghost use Rattle.std.specs.Prelude.{◌≡◌, IfErr, IfOk, length, map};
ghost use Rattle.std.specs.Arc.{arc_value};
ghost use Rattle.mcs_ports.specs.Causes.{Rose};
ghost use Rattle.mcs_mesh.specs.Rounds.{AreFresh};
ghost use Rattle.mcs_work.specs.declared.task.Task.TheVariants as tasks;
ghost use Rattle.mcs_listing.specs.Listings.{AreSure, StopsWork, UsesSink};
ghost use Rattle.mcs_editing.specs.Course.{HasPrinted};

use mcs_listing::{Stop, begin_with, stop_for_work, work_in_turn};
use mcs_mesh::NodeList;
use mcs_ports::{Gate, Sink};
use mcs_states::Oracle;
use mcs_system::System;
use mcs_work::Task;
use std::alloc::Global;
use std::sync::Arc;

/// Prints the whole listing of the system, by these oracles, one for each context, of which none was
/// asked and none can miss an answer. They come back with what they were asked.
///
/// Stops if a level has more questions than the budget, if a write fails, or for want of memory.
/// Then the contract says how much was printed.
pub(crate) fn solve<O: Oracle, K: Sink, G: Gate>(
    alloc: Global,
    system: &Arc<System>,
    oracles: Vec<O>,
    budget: u64,
    sink: &mut K,
    gate: &G,
) -> Result<Vec<O>, Stop>
    requires one_each { length oracles.items ≡ length (arc_value system.now).contexts }
    requires own { AreFresh (arc_value system.now) (map O.stands oracles.items) }
    requires sure { AreSure (map O.stands oracles.items) }
    ensures sink { UsesSink (K.device sink.old) (K.device sink.new) result }
    ensures ok { IfOk result (λ back. HasPrinted budget (arc_value system.now)
        (map O.stands oracles.items) (map O.stands back.items) (K.device sink.old).written
        (K.device sink.new).written) }
    ensures stop { IfErr result (λ stop. StopsWork stop tasks.Solve budget (arc_value system.now)
        (Rose (K.device sink.old).faults (K.device sink.new).faults) (K.device sink.old).written
        (K.device sink.new).written) }
{
    let listed = system.clone()?;
    let begun = begin_with(alloc, system, oracles, budget)?;
    let (ended, nodes) = work_in_turn(alloc, begun, listed, Task::Solve, sink, gate);
    match ended {
        Ok(()) => Ok(nodes.into_oracles()?),
        Err(stop) => {
            drop(nodes);
            Err(stop_for_work(stop, budget))
        }
    }
}
