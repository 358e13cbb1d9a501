//! The listing of a system with its proof.

ghost use Rattle.std.specs.Prelude.{true, [], ◌∷◌, OnOk, IfErr};
ghost use Rattle.mcs_ports.specs.Causes.{Rose};
ghost use Rattle.mcs_words.specs.Commands.{solve};
ghost use Rattle.mcs_listing.specs.Jobs.{told_all};
ghost use Rattle.mcs_work.specs.declared.task.Task.TheVariants.{Solve};
ghost use Rattle.mcs_crew.specs.Trails.{IsNoTrail, trail_of};
ghost use Rattle.mcs_check.specs.Validity.{IsProvedListing};
ghost use Rattle.mcs_listing.specs.Listings.{Prints, StopsStages, UsesSink};
ghost use Rattle.mcs_top.specs.Meaning.{IsSolutionStage, IsWithinBudget, meaning};
ghost use Rattle.mcs_top.specs.Promise.{DoesJob, as_done};
ghost use Rattle.mcs_top.specs.TaskTrails.{ShowsEnd};
ghost use Rattle.mcs_top.specs.Trails.{LeavesTrail};

use crate::assignment::Assignment;
use crate::evaluating::evaluate_system;
use mcs_crew::Trail;
use mcs_listing::{Stop, shared, system_in, write_answers};
use mcs_ports::{Gate, Shelf, Sink};
use mcs_system::System;
use mcs_work::Task;
use std::alloc::Global;
use std::sync::Wait;
use std::thread::Threads;

/// Prints the equilibria, minimal diagnoses and minimal explanations of the system whose text is in
/// the file, within a budget of questions. The answers on which these depend follow, each with a
/// certificate. What the last round of several workers leaves to be seen is put into `trail`.
pub(crate) fn prove<H: Shelf, K: Sink, G: Gate + Sync, R: Threads + Wait + Sync>(
    rt: &R,
    alloc: Global,
    file: &str,
    budget: u64,
    workers: u32,
    shelf: &mut H,
    sink: &mut K,
    gate: &G,
    trail: &mut Trail,
) -> Result<(), Stop>
    ensures does { DoesJob (meaning (solve file.now budget workers true)) (H.held shelf.old)
        (H.faults shelf.old) (H.faults shelf.new) (H.failures shelf.old) (H.failures shelf.new)
        (K.device sink.old) (K.device sink.new) (as_done result) }
    ensures trail { IsNoTrail (trail_of trail.old)
        → LeavesTrail (meaning (solve file.now budget workers true))
        (told_all (H.held shelf.old) (file.now ∷ [])) (trail_of trail.new) (as_done result) }
{
    let system = system_in(alloc, file, shelf)?;
    // The contract of `contexts` ensures that the system is valid and its names are names, so the
    // output is a valid report.
    let _ = system.contexts();
    prove_system(rt, alloc, system, budget, workers, sink, gate, trail)
}

/// Prints the same for the system.
fn prove_system<K: Sink, G: Gate + Sync, R: Threads + Wait + Sync>(
    rt: &R,
    alloc: Global,
    system: System,
    budget: u64,
    workers: u32,
    sink: &mut K,
    gate: &G,
    trail: &mut Trail,
) -> Result<(), Stop>
    ensures sink { UsesSink (K.device sink.old) (K.device sink.new) result }
    ensures ok { OnOk result (Prints (λ text. IsWithinBudget IsProvedListing Solve budget text
        system) (K.device sink.old).written (K.device sink.new).written) }
    ensures stop { IfErr result (λ stop. StopsStages (IsSolutionStage true) stop Solve budget system
        (Rose (K.device sink.old).faults (K.device sink.new).faults) (K.device sink.old).written
        (K.device sink.new).written) }
    ensures trail { IsNoTrail (trail_of trail.old)
        → ShowsEnd Solve budget workers system (trail_of trail.new) result }
{
    let system = shared(alloc, system)?;
    let assignment = Assignment {
        task: Task::Solve,
        budget,
        workers,
        keep: true,
    };
    let nodes = evaluate_system(rt, alloc, assignment, &system, sink, gate, trail)?;
    write_answers(alloc, &system, nodes, sink)
}
