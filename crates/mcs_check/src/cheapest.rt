//! The listing of the cheapest diagnoses of a system, computed from answers alone.

ghost use Rattle.std.specs.Prelude.{◌≡◌, ℕ, List};
ghost use Rattle.std.specs.Arc.{arc_value};
ghost use Rattle.mcs_system.specs.Faults.{IsValid};
ghost use Rattle.mcs_text.specs.Writes.{Writes};
ghost use Rattle.mcs_work.specs.Cheapest.{IsCheapestText};
ghost use Rattle.mcs_work.specs.Tasks.{stop_for_line};
ghost use Rattle.mcs_check.specs.Relisting.{AreAccepted, IsCutOff};

use crate::accepted::Accepted;
use crate::relisting::evaluator_of;
use mcs_ports::{IdleGate, Sink};
use mcs_system::System;
use mcs_text::Unwritten;
use mcs_work::{Task, WorkStop, work};
use std::alloc::Global;
use std::sync::Arc;

/// Prints the cheapest diagnoses of the system by what is left of a valid report: oracles of its
/// contexts that lack no answer on which the listing of its repairs depends, and what they have told
/// of the system, which is not found again. No solver runs, and no number of questions is too great. So the costs are
/// what the answers show.
///
/// Stops only if a write fails or for want of memory. A prefix of the listing was then written.
pub fn cheapest_by<K: Sink>(
    alloc: Global,
    system: Arc<System>,
    accepted: Accepted,
    sink: &mut K,
) -> Result<(), Unwritten>
    requires { AreAccepted (arc_value system) accepted.oracles.items accepted.told }
    ensures { (text : List ℕ) × IsCheapestText (arc_value system) text
        × Writes text (K.device sink.old) (K.device sink.new) result }
{
    // The contract of `contexts` ensures that the system is valid.
    let _ = system.contexts();
    list_by(alloc, system, accepted, sink)
}

/// Prints the same of a system that is valid.
fn list_by<K: Sink>(
    alloc: Global,
    system: Arc<System>,
    accepted: Accepted,
    sink: &mut K,
) -> Result<(), Unwritten>
    requires valid { IsValid (arc_value system) }
    requires accepted { AreAccepted (arc_value system) accepted.oracles.items
        accepted.told }
    ensures { (text : List ℕ) × IsCheapestText (arc_value system) text
        × Writes text (K.device sink.old) (K.device sink.new) result }
{
    let gate = IdleGate;
    let Accepted { oracles, told } = accepted;
    let recalling = evaluator_of(alloc, &system, oracles, told, &gate)?;
    let (worked, recalling) = work(alloc, recalling, system, Task::Cheapest, sink);
    drop(recalling);
    match worked {
        Ok(()) => Ok(()),
        Err(stop) => Err(cut_off(stop)),
    }
}

/// Why the listing was not written whole.
fn cut_off(stop: WorkStop) -> Unwritten
    requires { IsCutOff stop }
    ensures { stop ≡ stop_for_line result }
{
    match stop {
        WorkStop::Write => Unwritten::Fault,
        WorkStop::Memory => Unwritten::Memory,
        WorkStop::Spent { .. } | WorkStop::Missing { .. } => unreachable!(),
    }
}
