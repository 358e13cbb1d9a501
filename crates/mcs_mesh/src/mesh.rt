//! The evaluator on one thread.

ghost use Rattle.std.specs.Prelude.{◌≡◌, ℕ, None, Some, IfOk, map, length};
ghost use Rattle.std.specs.Arc.{arc_value};
ghost use Rattle.mcs_mesh.specs.Rounds.{evaluator_state_of, AreFresh, IsLastRoundOf};

use crate::evaluation::Evaluation;
use crate::making::nodes_of;
use crate::nodes::Nodes;
use crate::turns::TurnPlayer;
use mcs_base::Memory;
use mcs_import::Plan;
use mcs_node::Node;
use mcs_ports::Gate;
use mcs_states::Oracle;
use std::alloc::Global;
use std::sync::Arc;

/// Evaluates a system on one thread: it asks each context, through its oracle and in import order,
/// its questions of a level, and for what is asked of it makes rows of each and joins these in one
/// final step. It waits for nobody.
pub type Mesh<'a, O, G> = Evaluation<TurnPlayer<'a, O, G>>;

impl<'a, O: Oracle, G: Gate> Mesh<'a, O, G> {
    /// An evaluator of the plan's system within a budget of questions, with one oracle for each
    /// context, in order, of which none was asked. The gate is called before each question.
    pub fn new(
        alloc: Global,
        plan: Arc<Plan>,
        oracles: Vec<O>,
        budget: u64,
        gate: &'a G,
    ) -> Result<Mesh<'a, O, G>, Memory>
        requires one_each { length oracles.items ≡ length (arc_value plan).contexts }
        requires own { AreFresh (arc_value plan) (map O.stands oracles.items) }
        ensures state { IfOk result (λ mesh. mesh.state
            ≡ evaluator_state_of 1 (arc_value plan) budget None None (map O.stands oracles.items)) }
        ensures none { IfOk result (λ mesh. mesh.last ≡ None) }
    {
        let list = nodes_of(alloc, &plan, budget, oracles)?;
        let player = TurnPlayer::new(gate);
        Ok(Evaluation::played_by(alloc, plan, Nodes { list }, budget, player))
    }

    /// The nodes of the contexts, in order, as the last round has left them. They make a sound
    /// configuration of it, whatever has stopped it. Unless the evaluator has halted, each of them
    /// is done, and nothing is left to happen.
    pub fn nodes(&self) -> &[Node<O>]
        ensures nodes { result.now ≡ self.now.nodes }
        ensures round { (level : ℕ) → self.now.last ≡ Some level → IsLastRoundOf self.now level }
    {
        &self.nodes.list
    }
}
