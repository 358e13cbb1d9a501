//! The listing of the system whose text is in a file.

ghost use Rattle.std.specs.Prelude.{[], ◌∷◌};
ghost use Rattle.mcs_listing.specs.Jobs.{told_all};
ghost use Rattle.mcs_crew.specs.Trails.{IsNoTrail, trail_of};
ghost use Rattle.mcs_top.specs.Meaning.{task_job};
ghost use Rattle.mcs_top.specs.Promise.{DoesJob, as_done};
ghost use Rattle.mcs_top.specs.Trails.{LeavesTrail};

use crate::assignment::Assignment;
use crate::evaluating::list_system;
use mcs_crew::Trail;
use mcs_listing::{Stop, system_for};
use mcs_ports::{Gate, Shelf, Sink};
use std::alloc::Global;
use std::sync::Wait;
use std::thread::Threads;

/// Does the task for the system whose text is in the file, if it is defined for that system, within
/// a budget of questions. What the last round of several workers leaves to be seen is put into `trail`.
pub(crate) fn evaluate<H: Shelf, K: Sink, G: Gate + Sync, R: Threads + Wait + Sync>(
    rt: &R,
    alloc: Global,
    assignment: Assignment,
    file: &str,
    shelf: &mut H,
    sink: &mut K,
    gate: &G,
    trail: &mut Trail,
) -> Result<(), Stop>
    ensures does { DoesJob (task_job assignment.task file.now assignment.budget assignment.workers)
        (H.held shelf.old) (H.faults shelf.old) (H.faults shelf.new) (H.failures shelf.old)
        (H.failures shelf.new) (K.device sink.old) (K.device sink.new) (as_done result) }
    ensures trail { IsNoTrail (trail_of trail.old)
        → LeavesTrail (task_job assignment.task file.now assignment.budget assignment.workers)
        (told_all (H.held shelf.old) (file.now ∷ [])) (trail_of trail.new) (as_done result) }
{
    let system = system_for(alloc, assignment.task, file, shelf)?;
    list_system(rt, alloc, assignment, system, sink, gate, trail)
}
