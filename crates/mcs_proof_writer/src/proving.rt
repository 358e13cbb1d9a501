//! Writes the answers of the solvers of all contexts.

ghost use Rattle.std.specs.Prelude.{ℕ};
ghost use Rattle.mcs_proof_writer.specs.Proving.{AreAsked, Proves};

use crate::asking::all_questions;
use crate::gathering::gathered;
use crate::writing::write_marked;
use mcs_ports::Sink;
use mcs_solver::LocalSolver;
use mcs_system::System;
use mcs_text::Unwritten;
use std::alloc::Global;

/// Writes the proof part of a report: for each context, in order, and each set of rules with which
/// its solver was asked, ascending, the lines of the answer. All answers are gathered before the
/// first line is written.
pub fn write_proof<K: Sink>(
    alloc: Global,
    system: &System,
    solvers: &[LocalSolver],
    sink: &mut K,
) -> Result<(), Unwritten>
    requires { (level : ℕ) × AreAsked system.now level solvers.now }
    ensures { (level : ℕ) → AreAsked system.now level solvers.now
        → Proves system.now level (K.device sink.old) (K.device sink.new) result }
{
    let questions = all_questions(alloc, system, solvers)?;
    let answers = gathered(alloc, solvers, &questions)?;
    write_marked(alloc, system, &answers, sink)
}
