//! Evaluators of systems, with a solver for each context.

ghost use Rattle.std.specs.Prelude.{◌≡◌, [], map, length, false, IfOk};
ghost use Rattle.std.specs.Arc.{arc_value};
ghost use Rattle.std.specs.List.{range_with_len};
ghost use Rattle.mcs_solver.specs.Solvers.{solver_of};

use mcs_base::Memory;
use mcs_import::Plan;
use mcs_mesh::Mesh;
use mcs_ports::IdleGate;
use mcs_solver::LocalSolver;
use mcs_system::System;
use std::alloc::Global;
use std::sync::Arc;

/// What evaluates a system by its solvers.
pub(crate) type Solving<'g> = Mesh<'g, LocalSolver, IdleGate>;

/// A solver for each context of the system, in order.
fn solvers_of(alloc: Global, system: &Arc<System>) -> Result<Vec<LocalSolver>, Memory>
    ensures { IfOk result (λ solvers.
        solvers.items ≡ map (λ i. solver_of (arc_value system.now) i [])
        (range_with_len 0 (length (arc_value system.now).contexts))) }
{
    let mut solvers = Vec::new(alloc);
    for context in 0..system.contexts().len() as u32 {
        solvers.push(LocalSolver::new(alloc, system.clone()?, context, false))?;
    }
    Ok(solvers)
}

/// An evaluator of the system within a budget of questions. Nothing was asked.
pub(crate) fn evaluator_of<'g>(
    alloc: Global,
    system: &Arc<System>,
    budget: u64,
    gate: &'g IdleGate,
) -> Result<Solving<'g>, Memory>
    ensures { IfOk result (λ mesh. (mesh.state.system ≡ arc_value system.now)
        × (mesh.state.done ≡ None) × (mesh.state.halted ≡ false)) }
{
    let plan = Arc::new(alloc, Plan::of(alloc, system.clone()?)?)?;
    let solvers = solvers_of(alloc, system)?;
    Mesh::new(alloc, plan, solvers, budget, gate)
}
