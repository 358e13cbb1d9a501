//! The counts of a generated system.

ghost use Rattle.std.specs.Prelude.{OnOk, IfErr};
ghost use Rattle.mcs_ports.specs.Causes.{Rose};
ghost use Rattle.mcs_work.specs.declared.task.Task.TheVariants.{Make};
ghost use Rattle.mcs_generator.specs.Generated.{generated_system};
ghost use Rattle.mcs_crew.specs.Trails.{IsNoTrail, trail_of};
ghost use Rattle.mcs_listing.specs.Listings.{AfterNumber, IsListingText, Prints, StopsGenerated};
ghost use Rattle.mcs_listing.specs.Listings.{UsesSink};
ghost use Rattle.mcs_top.specs.TaskTrails.{ShowsEnd};

use crate::assignment::Assignment;
use crate::evaluating::list_system;
use mcs_crew::Trail;
use mcs_generator::generate;
use mcs_listing::{Stop, print_number};
use mcs_ports::{Gate, Sink};
use mcs_work::Task;
use std::alloc::Global;
use std::sync::Wait;
use std::thread::Threads;

/// Prints the line of the number, and does the task `Make` for the system generated for it. No
/// level may have more questions than `budget`.
///
/// What the last round of several workers leaves to be seen is put into `trail`.
///
/// Stops if a level has more questions, if a write fails, or for want of memory. Then the contract
/// says how much was printed.
pub(crate) fn generated<K: Sink, G: Gate + Sync, R: Threads + Wait + Sync>(
    rt: &R,
    alloc: Global,
    number: u64,
    budget: u64,
    workers: u32,
    sink: &mut K,
    gate: &G,
    trail: &mut Trail,
) -> Result<(), Stop>
    ensures sink { UsesSink (K.device sink.old) (K.device sink.new) result }
    ensures ok { OnOk result (Prints (AfterNumber (IsListingText Make budget) number)
        (K.device sink.old).written (K.device sink.new).written) }
    ensures stop { IfErr result (λ stop. StopsGenerated stop number budget
        (Rose (K.device sink.old).faults (K.device sink.new).faults) (K.device sink.old).written
        (K.device sink.new).written) }
    ensures trail { IsNoTrail (trail_of trail.old)
        → ShowsEnd Make budget workers (generated_system number) (trail_of trail.new) result }
{
    let system = generate(alloc, number)?;
    print_number(alloc, number, &system, sink)?;
    let assignment = Assignment {
        task: Task::Make,
        budget,
        workers,
        keep: false,
    };
    list_system(rt, alloc, assignment, system, sink, gate, trail)
}
