//! The answers on which a listing depends.

ghost use Rattle.std.specs.Prelude.{◌≡◌, ◌≤◌, ℕ, OnOk, IfErr, IsErrOf};
ghost use Rattle.mcs_ports.specs.Causes.{Rose};
ghost use Rattle.mcs_mesh.specs.Players.{oracles_of};
ghost use Rattle.mcs_proof_writer.specs.Proving.{AreAsked, HasProved};
ghost use Rattle.mcs_listing.specs.Listings.{StopsAnswers};

use crate::ending::Stop;
use mcs_mesh::{NodeList, Nodes};
use mcs_ports::Sink;
use mcs_proof_writer::write_proof;
use mcs_solver::LocalSolver;
use mcs_system::System;
use std::alloc::Global;

/// Writes the answers that the solvers of the nodes keep, each with its certificate. The solvers
/// have to keep certificates, and to have been asked exactly the questions of a level.
///
/// Stops if a write fails, or for want of memory. Then the contract says how much was written.
pub fn write_answers<K: Sink>(
    alloc: Global,
    system: &System,
    nodes: Nodes<LocalSolver>,
    sink: &mut K,
) -> Result<(), Stop>
    requires { (level : ℕ) × AreAsked system.now level (oracles_of nodes.list.items) }
    ensures later { (K.device sink.old).faults ≤ (K.device sink.new).faults }
    ensures unfailed { ¬ IsErrOf result Stop.WriteFault
        → (K.device sink.new).faults ≡ (K.device sink.old).faults }
    ensures notes { (K.device sink.new).notes ≡ (K.device sink.old).notes }
    ensures ok { (level : ℕ) → AreAsked system.now level (oracles_of nodes.list.items)
        → OnOk result (HasProved system.now level (K.device sink.old).written
        (K.device sink.new).written) }
    ensures stop { (level : ℕ) → AreAsked system.now level (oracles_of nodes.list.items)
        → IfErr result (λ stop. StopsAnswers stop system.now level
        (Rose (K.device sink.old).faults (K.device sink.new).faults) (K.device sink.old).written
        (K.device sink.new).written) }
{
    let solvers = nodes.into_oracles()?;
    Ok(write_proof(alloc, system, &solvers, sink)?)
}
