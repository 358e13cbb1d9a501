//! Meshes of solvers, one of which may halt each round.

ghost use Rattle.std.specs.Prelude.{◌≡◌, ◌<◌, length, false, None, IfOk};
ghost use Rattle.std.specs.Arc.{arc_value};
ghost use Rattle.mcs_node.specs.Nodes.{IsFreshOracle};
ghost use Rattle.mcs_mesh.specs.Rounds.{AreFresh};

use crate::halting::{Halting, HaltingOracle};
use mcs_base::Memory;
use mcs_import::Plan;
use mcs_language::read_system;
use mcs_mesh::Mesh;
use mcs_ports::IdleGate;
use mcs_solver::LocalSolver;
use mcs_system::System;
use std::alloc::Global;
use std::sync::Arc;
use std::test::Fail;

/// An evaluation by solvers that may halt.
pub(crate) type Meshed<'g> = Mesh<'g, HaltingOracle, IdleGate>;

/// The context at which a round halts, and how.
#[derive(Clone, Copy)]
pub(crate) struct HaltAt {
    pub context: u32,
    pub halting: Halting,
}

impl HaltAt {
    /// How a round halts at the context.
    fn halting_of(self, context: u32) -> Halting {
        if context == self.context {
            self.halting
        } else {
            Halting::Never
        }
    }
}

/// No round halts by its oracles.
pub(crate) const NOWHERE: HaltAt = HaltAt {
    context: 0,
    halting: Halting::Never,
};

/// The system that the text spells.
pub(crate) fn system_of(alloc: Global, text: &[u8]) -> Result<Arc<System>, Fail> {
    Ok(Arc::new(alloc, read_system(alloc, text)?)?)
}

/// An oracle of the context of the system, of which nothing was asked.
fn oracle_of(
    alloc: Global,
    system: &Arc<System>,
    context: u32,
    at: HaltAt,
) -> Result<HaltingOracle, Memory>
    requires { context < length (arc_value system.now).contexts }
    ensures { IfOk result (IsFreshOracle (arc_value system.now) context) }
{
    let solver = LocalSolver::new(alloc, system.clone()?, context, false);
    Ok(HaltingOracle::new(solver, at.halting_of(context)))
}

/// An oracle for each context of the system, in order, of which nothing was asked.
fn oracles_of(alloc: Global, system: &Arc<System>, at: HaltAt) -> Result<Vec<HaltingOracle>, Memory>
    ensures one_each { IfOk result (λ oracles. length oracles.items
        ≡ length (arc_value system.now).contexts) }
    ensures fresh { IfOk result (λ oracles. AreFresh (arc_value system.now) oracles.items) }
{
    let mut oracles = Vec::new(alloc);
    for context in 0..system.contexts().len() as u32 {
        let oracle = oracle_of(alloc, system, context, at)?;
        oracles.push(oracle)?;
    }
    Ok(oracles)
}

/// An evaluation of the system within a budget of questions. Nothing was asked.
pub(crate) fn mesh_of<'g>(
    alloc: Global,
    system: &Arc<System>,
    budget: u64,
    at: HaltAt,
    gate: &'g IdleGate,
) -> Result<Meshed<'g>, Memory>
    ensures { IfOk result (λ mesh. (mesh.last ≡ None) × (mesh.state.halted ≡ false)) }
{
    let plan = Arc::new(alloc, Plan::of(alloc, system.clone()?)?)?;
    let oracles = oracles_of(alloc, system, at)?;
    Mesh::new(alloc, plan, oracles, budget, gate)
}
