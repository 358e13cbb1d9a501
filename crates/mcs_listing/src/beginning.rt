//! What an evaluation begins with: a plan, and for each context a node with a solver of which
//! nothing was asked.

ghost use Rattle.std.specs.Prelude.{◌≡◌, cond, [], ◌∷◌, map, length, IfOk};
ghost use Rattle.std.specs.Arc.{arc_value};
ghost use Rattle.std.specs.List.{range_with_len};
ghost use Rattle.mcs_mesh.specs.Players.{oracles_of};
ghost use Rattle.mcs_mesh.specs.Rounds.{AreFresh};
ghost use Rattle.mcs_solver.specs.Solvers.{solver_with};
ghost use Rattle.mcs_listing.specs.Listings.{AreSure, HaveOrigin};
ghost use Rattle.mcs_listing.specs.Working.{Begins};

use mcs_base::Memory;
use mcs_import::Plan;
use mcs_mesh::{Nodes, nodes_of};
use mcs_solver::LocalSolver;
use mcs_states::Oracle;
use mcs_system::System;
use std::alloc::Global;
use std::sync::Arc;

/// What an evaluation begins with.
#[derive(Drop)]
pub struct Beginning<N> {
    pub plan: Arc<Plan>,
    /// The nodes of the contexts, in order, of which none was asked.
    pub nodes: N,
    /// The most questions of a level that may be asked.
    pub budget: u64,
}

/// What an evaluation of the system begins with, within a budget of questions: a node with a solver
/// for each context. The solvers keep certificates if `keep` holds. Stops only for want of memory.
pub fn begin_evaluation(
    alloc: Global,
    system: &Arc<System>,
    budget: u64,
    keep: bool,
) -> Result<Beginning<Nodes<LocalSolver>>, Memory>
    ensures budget { IfOk result (λ b. b.budget ≡ budget) }
    ensures begins { IfOk result (λ b. Begins (arc_value system.now)
        (arc_value b.plan) b.budget b.nodes.list.items) }
    ensures sure { IfOk result (λ b. AreSure (oracles_of b.nodes.list.items)) }
    ensures keeps { IfOk result (λ b. HaveOrigin (cond keep ([] ∷ []) [])
        (oracles_of b.nodes.list.items)) }
{
    let solvers = solvers_of(alloc, system, keep)?;
    begin_with(alloc, system, solvers, budget)
}

/// What an evaluation of the system begins with, within a budget of questions, by these oracles, one
/// for each context, of which none was asked. Stops only for want of memory.
pub fn begin_with<O: Oracle>(
    alloc: Global,
    system: &Arc<System>,
    oracles: Vec<O>,
    budget: u64,
) -> Result<Beginning<Nodes<O>>, Memory>
    requires one_each { length oracles.items ≡ length (arc_value system.now).contexts }
    requires own { AreFresh (arc_value system.now) (map O.stands oracles.items) }
    ensures budget { IfOk result (λ b. b.budget ≡ budget) }
    ensures begins { IfOk result (λ b. Begins (arc_value system.now) (arc_value b.plan) b.budget
        b.nodes.list.items) }
    ensures same { IfOk result (λ b. oracles_of b.nodes.list.items ≡ map O.stands oracles.items) }
{
    let plan = Arc::new(alloc, Plan::of(alloc, system.clone()?)?)?;
    let list = nodes_of(alloc, &plan, budget, oracles)?;
    Ok(Beginning {
        plan,
        nodes: Nodes { list },
        budget,
    })
}

/// A solver for each context of the system, in their order. The solvers keep certificates if `keep`
/// holds.
fn solvers_of(alloc: Global, system: &Arc<System>, keep: bool) -> Result<Vec<LocalSolver>, Memory>
    ensures { IfOk result (λ solvers.
        solvers.items ≡ map (λ i. solver_with keep (arc_value system.now) i [])
        (range_with_len 0 (length (arc_value system.now).contexts))) }
{
    let mut solvers = Vec::new(alloc);
    for context in 0..system.contexts().len() as u32 {
        solvers.push(LocalSolver::new(alloc, system.clone()?, context, keep))?;
    }
    Ok(solvers)
}

/// The system, shared: its solvers and its evaluator refer to it.
pub fn shared(alloc: Global, system: System) -> Result<Arc<System>, Memory>
    ensures { IfOk result (λ shared. arc_value shared ≡ system) }
{
    Ok(Arc::new(alloc, system)?)
}
