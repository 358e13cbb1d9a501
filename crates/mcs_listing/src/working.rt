//! The work on a task, whoever plays the rounds of its evaluation.

ghost use Rattle.std.specs.Prelude.{[]};
ghost use Rattle.std.specs.Arc.{arc_value};
ghost use Rattle.mcs_states.specs.Calls.{CanBegin};
ghost use Rattle.mcs_reduct.specs.Plain.{IsPlain};
ghost use Rattle.mcs_work.specs.Tasks.{IsDefinedFor};
ghost use Rattle.mcs_work.specs.Work.{Works};
ghost use Rattle.mcs_work.specs.declared.task.Task.TheVariants as tasks;
ghost use Rattle.mcs_mesh.specs.Players.{oracles_of};
ghost use Rattle.mcs_listing.specs.Working.{CanWork, HasWorked, IsWorked};

use crate::beginning::Beginning;
use mcs_costs::CheapestEvaluator;
use mcs_grounded::grounded_among;
use mcs_mesh::{Evaluation, Nodes, Parts, Player, TurnPlayer};
use mcs_ports::{Gate, Sink};
use mcs_states::{Evaluator, Oracle};
use mcs_system::System;
use mcs_work::{Task, WorkStop, find_states, print_grounded, work};
use std::alloc::Global;
use std::sync::Arc;

/// Does the task, which has to be defined for the system, by an evaluation that the player plays:
/// prints its listing of the system. The nodes come back in every case, and what the player has
/// shown of the last round, if one was played. The causes of a stop are those of `work`.
pub fn work_by<P: Player + Drop, K: Sink>(
    alloc: Global,
    beginning: Beginning<P::Over>,
    system: Arc<System>,
    player: P,
    task: Task,
    sink: &mut K,
) -> (Result<(), WorkStop>, Parts<P::Over, P::Trail>)
    requires work { CanWork task (arc_value system) (arc_value beginning.plan) beginning.budget
        (P.Over.seen beginning.nodes) }
    requires play { P.can_play player }
    ensures { HasWorked (P.leaves (P.workers player)) P.plays_last P.plays_each (P.workers player)
        task (arc_value system) beginning.budget
        (oracles_of (P.Over.seen beginning.nodes)) (P.Over.seen result.1.nodes) result.1.trail
        (K.device sink.old) (K.device sink.new) result.0 }
{
    let Beginning {
        plan,
        nodes,
        budget,
    } = beginning;
    let evaluation = Evaluation::played_by(alloc, plan, nodes, budget, player);
    let (ended, evaluation) = do_task(alloc, evaluation, system, task, sink);
    (ended, evaluation.into_parts())
}

/// Does the task, which has to be defined for the system, on one thread, and waits for nobody. The
/// nodes come back in every case. The causes of a stop are those of `work`.
pub fn work_in_turn<O: Oracle, K: Sink, G: Gate>(
    alloc: Global,
    beginning: Beginning<Nodes<O>>,
    system: Arc<System>,
    task: Task,
    sink: &mut K,
    gate: &G,
) -> (Result<(), WorkStop>, Nodes<O>)
    requires { CanWork task (arc_value system) (arc_value beginning.plan) beginning.budget
        beginning.nodes.list.items }
    ensures { IsWorked 1 task (arc_value system) beginning.budget
        (oracles_of beginning.nodes.list.items) (oracles_of result.1.list.items)
        (K.device sink.old) (K.device sink.new) result.0 }
{
    let player = TurnPlayer::new(gate);
    let (ended, parts) = work_by(alloc, beginning, system, player, task, sink);
    let Parts { nodes, .. } = parts;
    (ended, nodes)
}

/// Does the task by the evaluator, as `work` does; for grounded equilibria a solver is used too.
fn do_task<E: CheapestEvaluator, K: Sink>(
    alloc: Global,
    evaluator: E,
    system: Arc<System>,
    task: Task,
    sink: &mut K,
) -> (Result<(), WorkStop>, E)
    requires begin { CanBegin (arc_value system) (E.stands evaluator) }
    requires defined { IsDefinedFor task (arc_value system) }
    ensures { Works task [] (E.stands evaluator) (E.stands result.1) (K.device sink.old)
        (K.device sink.new) result.0 }
{
    match task {
        Task::Equilibria | Task::Solve | Task::Cheapest | Task::Make => {
            work(alloc, evaluator, system, task, sink)
        }
        Task::Grounded => {
            let mut evaluator = evaluator;
            let result = list_grounded(alloc, &mut evaluator, &system, sink);
            (result, evaluator)
        }
    }
}

/// Prints the listing of the grounded equilibria of the system, with the number of its projected
/// equilibria and that of the questions asked. The answer sets that a solver finds on the way are no
/// questions.
fn list_grounded<E: Evaluator, K: Sink>(
    alloc: Global,
    evaluator: &mut E,
    system: &System,
    sink: &mut K,
) -> Result<(), WorkStop>
    requires begin { CanBegin system.now (E.stands evaluator.old) }
    requires plain { IsPlain system.now }
    ensures { Works tasks.Grounded [] (E.stands evaluator.old) (E.stands evaluator.new)
        (K.device sink.old) (K.device sink.new) result }
{
    let states = find_states(alloc, evaluator, Task::Grounded, system, sink)?;
    let grounded = grounded_among(alloc, system, &states)?;
    let equilibria = states.len() as u64;
    let asked = evaluator.asked();
    print_grounded(alloc, system, &grounded, equilibria, asked, sink)?;
    Ok(())
}
