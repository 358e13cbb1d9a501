//! The work on a task by worker threads.

ghost use Rattle.std.specs.Prelude.{◌≡◌};
ghost use Rattle.std.specs.Arc.{arc_value};
ghost use Rattle.std.specs.Thread.{IsSend, IsSync};
ghost use Rattle.mcs_mesh.specs.Players.{IsPlayed, IsReadyRound, oracles_of};
ghost use Rattle.mcs_crew.specs.Trails.{IsTrail, trail_of};
ghost use Rattle.mcs_listing.specs.Working.{CanWork, HasWorked, IsWorked};
ghost use Rattle.mcs_top.specs.Evaluating.{ShowsWork};
ghost use Rattle.mcs_top.specs.TaskTrails.{plays_each};

use mcs_crew::{CrewPlayer, Trail, play_in_threads};
use mcs_listing::{Beginning, work_by};
use mcs_mesh::{EachLevel, Nodes, Parts, Played, Player, Round};
use mcs_ports::{Gate, Sink};
use mcs_states::{Fork, Oracle};
use mcs_system::System;
use mcs_work::{Task, WorkStop};
use std::alloc::Global;
use std::sync::{Arc, Wait};
use std::thread::Threads;

/// What the work on a task leaves.
#[derive(Drop)]
pub(crate) struct Worked<O: Oracle> {
    pub(crate) ended: Result<(), WorkStop>,
    pub(crate) nodes: Nodes<O>,
    /// The trail of the last round.
    pub(crate) trail: Trail,
}

/// Does the task, which has to be defined for the system, with so many workers, but at most one for
/// each context, of which each may be a thread of its own. It may wait for them.
pub(crate) fn work_in_threads<O: Fork + Send, K: Sink, G: Gate + Sync, R: Threads + Wait + Sync>(
    rt: &R,
    alloc: Global,
    workers: u32,
    beginning: Beginning<Nodes<O>>,
    system: Arc<System>,
    task: Task,
    sink: &mut K,
    gate: &G,
) -> Worked<O>
    requires { CanWork task (arc_value system) (arc_value beginning.plan) beginning.budget
        beginning.nodes.list.items }
    ensures worked { IsWorked workers task (arc_value system) beginning.budget
        (oracles_of beginning.nodes.list.items) (oracles_of result.nodes.list.items)
        (K.device sink.old) (K.device sink.new) result.ended }
    ensures shows { ShowsWork task beginning.budget workers (arc_value system)
        (trail_of result.trail) result.ended }
{
    let play = |round: Round<Nodes<O>>| -> Played<Nodes<O>, Trail>
        requires shared { IsSync R.row × IsSync G.row × IsSend O.row }
        requires ready { IsReadyRound (arc_value round.plan) round.level round.budget round.asked
            round.nodes.list.items }
        ensures played { IsPlayed (arc_value round.plan) round.level round.budget
            round.nodes.list.items result.nodes.list.items result.total }
        ensures trail { IsTrail (arc_value round.plan) round.level workers result.nodes.list.items
            result.total (trail_of result.trail) }
    { play_in_threads(rt, alloc, gate, workers, round) };
    let player = CrewPlayer::new(&play, workers);
    let (ended, parts) = work_with(alloc, beginning, system, player, task, sink);
    let Parts { nodes, trail } = parts;
    Worked {
        ended,
        nodes,
        trail: trail.unwrap_or(Trail::nothing(alloc)),
    }
}

/// Does the task, which has to be defined for the system, by rounds that the player plays: that of
/// each level where the task asks for it.
fn work_with<P: Player + Drop, K: Sink>(
    alloc: Global,
    beginning: Beginning<P::Over>,
    system: Arc<System>,
    player: P,
    task: Task,
    sink: &mut K,
) -> (Result<(), WorkStop>, Parts<P::Over, P::Trail>)
    requires work { CanWork task (arc_value system) (arc_value beginning.plan) beginning.budget
        (P.Over.seen beginning.nodes) }
    requires play { P.can_play player }
    ensures { HasWorked (P.leaves (P.workers player)) P.plays_last (plays_each task)
        (P.workers player) task (arc_value system) beginning.budget
        (oracles_of (P.Over.seen beginning.nodes)) (P.Over.seen result.1.nodes) result.1.trail
        (K.device sink.old) (K.device sink.new) result.0 }
{
    if plays_each(task) {
        work_by(alloc, beginning, system, EachLevel::new(player), task, sink)
    } else {
        work_by(alloc, beginning, system, player, task, sink)
    }
}

/// Whether the round of each level is played for the task.
fn plays_each(task: Task) -> bool
    ensures { result ≡ plays_each task }
{
    match task {
        Task::Cheapest => true,
        Task::Equilibria | Task::Grounded | Task::Solve | Task::Make => false,
    }
}
