//! Rounds of questions that threads play.

ghost use Rattle.std.specs.Prelude.{◌≡◌, ◌≤◌, ℕ, List, IfErr, IfOk, length, map};
ghost use Rattle.std.specs.Arc.{arc_value};
ghost use Rattle.mcs_system.specs.Faults.{IsValid};
ghost use Rattle.mcs_system.specs.Plain.{System};
ghost use Rattle.mcs_node.specs.Nodes.{NodeData};
ghost use Rattle.mcs_mesh.specs.Players.{IsPlayed, IsReadyRound, as_new};
ghost use Rattle.mcs_crew.specs.Rounds.{HaveBeenPlayed, IsTold};
ghost use Rattle.mcs_crew.specs.Trails.{IsNoTrail, IsToldHalt, IsTrail, IsTrailAfter, group_count};
ghost use Rattle.mcs_crew.specs.Trails.{trail_of};

use crate::crew::work_all;
use crate::dealing::{collect, deal};
use crate::ending::ending;
use crate::equipment::{Equipment, equipment_of, hall_of};
use crate::returning::{Ended, end};
use crate::trail::Trail;
use mcs_base::Memory;
use mcs_draw::Closed;
use mcs_import::Plan;
use mcs_mesh::{Nodes, Played, Player, Round, TurnPlayer, begin_all};
use mcs_node::Node;
use mcs_ports::Gate;
use mcs_states::{Fork, Halt, Oracle};
use mcs_wire::Settled;
use std::alloc::Global;
use std::sync::{Arc, Wait};
use std::thread::Threads;

/// Plays the round with so many workers, but at most one for each context. The node of context `i`
/// is in the group `i` modulo the number of workers used. Each group is worked by a thread of its
/// own, but for the first and those for which no thread can be made: the caller works these. Each
/// letter goes through the inbox of its addressee's group, and each total is drawn from one word.
/// The gate is called before each question.
///
/// Workers that have no group, wait for a letter, or have done their part, help the others: the
/// questions of a context are asked in parts then, by forks of its oracle. That changes no answer
/// and no journal.
///
/// With fewer than two workers used, the round is played in turn, and the call waits for nobody.
/// Otherwise it may wait.
///
/// All nodes come back in every case, and of their oracles nothing but the journals ever changes.
/// `Spent` and `Missing` are those of the lowest node that stopped by itself. `Memory` may come
/// back in place of any other answer.
pub fn play_in_threads<O: Fork + Send, G: Gate + Sync, R: Threads + Wait + Sync>(
    rt: &R,
    alloc: Global,
    gate: &G,
    workers: u32,
    round: Round<Nodes<O>>,
) -> Played<Nodes<O>, Trail>
    requires ready { IsReadyRound (arc_value round.plan) round.level round.budget round.asked
        round.nodes.list.items }
    ensures played { IsPlayed (arc_value round.plan) round.level round.budget
        round.nodes.list.items result.nodes.list.items result.total }
    ensures told { 2 ≤ group_count workers (length round.nodes.list.items)
        → IfErr result.total (IsToldHalt result.nodes.list.items) }
    ensures trail { IsTrail (arc_value round.plan) round.level workers result.nodes.list.items
        result.total (trail_of result.trail) }
{
    let groups = group_count(workers, round.plan.system().contexts().len());
    if groups < 2 {
        return play_alone(alloc, gate, round);
    }
    let Round {
        plan,
        level,
        asked,
        nodes,
        ..
    } = round;
    let Nodes { mut list } = nodes;
    match play_groups(
        rt, alloc, gate, &plan, level, asked, workers, groups, &mut list,
    ) {
        Ok(ended) => told(alloc, list, ended),
        Err(Memory) => Played {
            nodes: Nodes { list },
            total: Err(Halt::Memory),
            trail: Trail::nothing(alloc),
        },
    }
}

/// How many groups there are with so many workers, and so many contexts.
fn group_count(workers: u32, contexts: usize) -> u32
    requires { contexts ≤ 64 }
    ensures { result ≡ group_count workers contexts }
{
    workers.min(contexts as u32)
}

/// Plays the round in turn.
fn play_alone<O: Oracle, G: Gate>(
    alloc: Global,
    gate: &G,
    round: Round<Nodes<O>>,
) -> Played<Nodes<O>, Trail>
    requires ready { IsReadyRound (arc_value round.plan) round.level round.budget round.asked
        round.nodes.list.items }
    ensures played { IsPlayed (arc_value round.plan) round.level round.budget
        round.nodes.list.items result.nodes.list.items result.total }
    ensures trail { IsNoTrail (trail_of result.trail) }
{
    let Played { nodes, total, .. } = TurnPlayer::new(gate).play(alloc, round);
    Played {
        nodes,
        total,
        trail: Trail::nothing(alloc),
    }
}

/// Plays the round of the level by so many groups, after so many questions were asked; the workers
/// that have no group help. All that takes memory is made, and all nodes have begun, before a
/// letter is sent.
fn play_groups<O: Fork + Send, G: Gate + Sync, R: Threads + Wait + Sync>(
    rt: &R,
    alloc: Global,
    gate: &G,
    plan: &Arc<Plan>,
    level: u32,
    asked: u64,
    workers: u32,
    groups: u32,
    nodes: &mut Vec<Node<O>>,
) -> Result<Ended, Memory>
    requires ready { (budget : ℕ)
        × IsReadyRound (arc_value plan.now) level budget asked nodes.old.items }
    requires groups { (2 ≤ groups) × (groups ≤ 64) }
    requires valid { IsValid (arc_value plan.now) }
    ensures same { map as_new nodes.new.items ≡ map as_new nodes.old.items }
    ensures played { IfOk result (λ ended. (budget : ℕ)
        (ready : IsReadyRound (arc_value plan.now) level budget asked nodes.old.items)
        → HaveBeenPlayed (arc_value plan.now) level budget asked ready.before groups
        nodes.new.items ended.wires.items ended.word) }
{
    let hall = hall_of(alloc, groups, workers)?;
    begin_all(alloc, level, nodes)?;
    let equipment = equipment_of(alloc, plan, asked, groups)?;
    let Equipment {
        draw,
        hub,
        mut loads,
    } = equipment;
    let contexts = nodes.len();
    deal(nodes, &mut loads);
    let mut loads = work_all(rt, alloc, &draw, gate, hall, loads);
    collect(&mut loads, nodes, contexts);
    end(rt, alloc, draw, hub, loads)
}

/// What is told of a round that groups have played, by how its nodes have ended.
fn told<O: Oracle>(alloc: Global, nodes: Vec<Node<O>>, ended: Ended) -> Played<Nodes<O>, Trail>
    ensures nodes { result.nodes.list ≡ nodes }
    ensures told { (m : System) (level budget asked groups : ℕ) (first : List NodeData)
        (ready : IsReadyRound m level budget asked first)
        → map as_new nodes.items ≡ map as_new first
        → HaveBeenPlayed m level budget asked ready.before groups nodes.items ended.wires.items
        ended.word
        → IsTold m level budget groups first nodes.items result.total (trail_of result.trail) }
{
    let Ended { wires, word } = ended;
    let total = &ending(&nodes, word.total());
    let trail = trail_after(alloc, total, wires, word);
    Played {
        nodes: Nodes { list: nodes },
        total: *total,
        trail,
    }
}

/// What is shown of the wires and the word, once the round has ended so.
fn trail_after(alloc: Global, total: &Result<u64, Halt>, wires: Vec<Settled>, word: Closed) -> Trail
    ensures { IsTrailAfter total.now wires.items word (trail_of result) }
{
    match total {
        Err(Halt::Memory) => Trail::nothing(alloc),
        Ok(_) | Err(Halt::Spent { .. }) | Err(Halt::Missing { .. }) => Trail {
            wires,
            word: Some(word),
        },
    }
}
