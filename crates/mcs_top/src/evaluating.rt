//! The evaluation of a system: by one worker or by several.

ghost use Rattle.std.specs.Prelude.{ℕ, IfOk, IfErr, OnOk};
ghost use Rattle.std.specs.Arc.{arc_value};
ghost use Rattle.mcs_ports.specs.Causes.{Rose};
ghost use Rattle.mcs_mesh.specs.Players.{oracles_of};
ghost use Rattle.mcs_crew.specs.Trails.{IsNoTrail, trail_of};
ghost use Rattle.mcs_listing.specs.Listings.{IsListingText, Prints, StopsWork, UsesSink};
ghost use Rattle.mcs_work.specs.Tasks.{IsDefinedFor};
ghost use Rattle.mcs_listing.specs.Working.{CanWork, IsWorked};
ghost use Rattle.mcs_top.specs.Evaluating.{HasListed, ShowsWork};
ghost use Rattle.mcs_top.specs.TaskTrails.{ShowsEnd};

use crate::assignment::Assignment;
use crate::threads::{Worked, work_in_threads};
use mcs_crew::Trail;
use mcs_listing::{Beginning, Stop, begin_evaluation, shared, stop_for_work, work_in_turn};
use mcs_mesh::Nodes;
use mcs_ports::{Gate, Sink};
use mcs_solver::LocalSolver;
use mcs_system::System;
use mcs_work::Task;
use std::alloc::Global;
use std::sync::{Arc, Wait};
use std::thread::Threads;

/// Does the task, which has to be defined for the system. No level may have more questions than the
/// budget. The nodes come back with what their solvers were asked. What the last round of several
/// workers leaves to be seen is put into `trail`.
///
/// Stops if a level has more questions, if a write fails, or for want of memory. Then the contract
/// says how much was printed.
pub(crate) fn evaluate_system<K: Sink, G: Gate + Sync, R: Threads + Wait + Sync>(
    rt: &R,
    alloc: Global,
    assignment: Assignment,
    system: &Arc<System>,
    sink: &mut K,
    gate: &G,
    trail: &mut Trail,
) -> Result<Nodes<LocalSolver>, Stop>
    requires { IsDefinedFor assignment.task (arc_value system.now) }
    ensures sink { UsesSink (K.device sink.old) (K.device sink.new) result }
    ensures ok { IfOk result (λ nodes. HasListed assignment.task assignment.budget assignment.keep
        (arc_value system.now) (oracles_of nodes.list.items) (K.device sink.old).written
        (K.device sink.new).written) }
    ensures stop { IfErr result (λ stop. StopsWork stop assignment.task assignment.budget
        (arc_value system.now)
        (Rose (K.device sink.old).faults (K.device sink.new).faults) (K.device sink.old).written
        (K.device sink.new).written) }
    ensures trail { IsNoTrail (trail_of trail.old)
        → ShowsEnd assignment.task assignment.budget assignment.workers (arc_value system.now)
        (trail_of trail.new) result }
{
    let Assignment {
        task,
        budget,
        workers,
        keep,
    } = assignment;
    let listed = system.clone()?;
    let begun = begin_evaluation(alloc, system, budget, keep)?;
    let worked = work_on(rt, alloc, workers, begun, listed, task, sink, gate);
    let Worked {
        ended,
        nodes,
        trail: left,
    } = worked;
    *trail = left;
    match ended {
        Ok(()) => Ok(nodes),
        Err(stop) => Err(stop_for_work(stop, budget)),
    }
}

/// Does the task: with fewer than two workers by the caller alone, which is then handed no runtime.
fn work_on<K: Sink, G: Gate + Sync, R: Threads + Wait + Sync>(
    rt: &R,
    alloc: Global,
    workers: u32,
    beginning: Beginning<Nodes<LocalSolver>>,
    system: Arc<System>,
    task: Task,
    sink: &mut K,
    gate: &G,
) -> Worked<LocalSolver>
    requires { CanWork task (arc_value system) (arc_value beginning.plan) beginning.budget
        beginning.nodes.list.items }
    ensures worked { (by : ℕ) × IsWorked by task (arc_value system) beginning.budget
        (oracles_of beginning.nodes.list.items) (oracles_of result.nodes.list.items)
        (K.device sink.old) (K.device sink.new) result.ended }
    ensures shows { ShowsWork task beginning.budget workers (arc_value system)
        (trail_of result.trail) result.ended }
{
    if workers >= 2 {
        return work_in_threads(rt, alloc, workers, beginning, system, task, sink, gate);
    }
    let (ended, nodes) = work_in_turn(alloc, beginning, system, task, sink, gate);
    Worked {
        ended,
        nodes,
        trail: Trail::nothing(alloc),
    }
}

/// Does the task, which has to be defined for the system, and lets go of the system. No level may
/// have more questions than the budget. What the last round of several workers leaves to be seen is put into `trail`.
///
/// Stops if a level has more questions, if a write fails, or for want of memory. Then the contract
/// says how much was printed.
pub(crate) fn list_system<K: Sink, G: Gate + Sync, R: Threads + Wait + Sync>(
    rt: &R,
    alloc: Global,
    assignment: Assignment,
    system: System,
    sink: &mut K,
    gate: &G,
    trail: &mut Trail,
) -> Result<(), Stop>
    requires { IsDefinedFor assignment.task system }
    ensures sink { UsesSink (K.device sink.old) (K.device sink.new) result }
    ensures ok { OnOk result (Prints (λ text. IsListingText assignment.task assignment.budget text
        system) (K.device sink.old).written (K.device sink.new).written) }
    ensures stop { IfErr result (λ stop. StopsWork stop assignment.task assignment.budget system
        (Rose (K.device sink.old).faults (K.device sink.new).faults) (K.device sink.old).written
        (K.device sink.new).written) }
    ensures trail { IsNoTrail (trail_of trail.old)
        → ShowsEnd assignment.task assignment.budget assignment.workers system
        (trail_of trail.new) result }
{
    let system = shared(alloc, system)?;
    let nodes = evaluate_system(rt, alloc, assignment, &system, sink, gate, trail)?;
    drop(nodes);
    Ok(())
}
