//! Rounds that are played on one thread, one context after the other.

ghost use Rattle.std.specs.Prelude.{◌≡◌, ◌+◌, ◌≤◌, ◌^◌, ◌⊎◌, ℕ, IfErr, IfOk, OnErr, OnOk, false};
ghost use Rattle.std.specs.Prelude.{map};
ghost use Rattle.std.specs.Arc.{arc_value};
ghost use Rattle.std.specs.List.{AllByRecursion};
ghost use Rattle.mcs_node.specs.Nodes.{WaitsForGrant, begun_at};
ghost use Rattle.mcs_mesh.specs.Players.{CanBegin, FinishesOn, HasGrantCause, HasStoppedOn};
ghost use Rattle.mcs_mesh.specs.Players.{HaveBegunSome, IsPlayed, IsReadyRound, as_new};
ghost use Rattle.mcs_mesh.specs.Rounds.{IsSoundRound};

use crate::letters::deliver_all;
use crate::nodes::Nodes;
use crate::player::{Played, Player, Round};
use mcs_base::Memory;
use mcs_import::Plan;
use mcs_node::{Asker, InTurn, Node};
use mcs_ports::Gate;
use mcs_states::{Halt, Oracle};
use std::alloc::Global;

/// Plays rounds on one thread: all nodes begin, then each is granted its total in the import order,
/// and the letters that it puts out are delivered at once, so that a node has every supply when it
/// is granted. The gate is called before each question. It waits for nobody.
///
/// Whatever stops a round, the nodes that it leaves make a sound configuration of it.
#[derive(Drop)]
pub struct TurnPlayer<'a, O, G> {
    pub(crate) asker: InTurn<'a, O, G>,
}

impl<'a, O, G> TurnPlayer<'a, O, G> {
    /// Plays in turn, through the gate.
    pub fn new(gate: &'a G) -> TurnPlayer<'a, O, G> {
        TurnPlayer {
            asker: InTurn::new(gate),
        }
    }
}

impl<'a, O: Oracle, G: Gate> Player for TurnPlayer<'a, O, G> {
    type Over = Nodes<O>;

    type Trail = ();

    ghost workers = { λ _. 1 };

    ghost plays_last = { false };

    ghost plays_each = { false };

    ghost can_play = { λ _. Unit {0} };

    ghost leaves = { λ _ m level budget nodes _ _. IsSoundRound m level budget nodes };

    fn plays_last_level() -> bool {
        false
    }

    fn plays_each_level() -> bool {
        false
    }

    fn play(&self, alloc: Global, round: Round<Nodes<O>>) -> Played<Nodes<O>, ()>
        requires can { Unit {0} }
        requires ready { IsReadyRound (arc_value round.plan) round.level round.budget round.asked
            round.nodes.list.items }
        ensures played { IsPlayed (arc_value round.plan) round.level round.budget
            round.nodes.list.items result.nodes.list.items result.total }
        ensures left { IsSoundRound (arc_value round.plan) round.level round.budget
            result.nodes.list.items }
    {
        let Round {
            plan,
            level,
            asked,
            nodes,
            ..
        } = round;
        let Nodes { mut list } = nodes;
        let total = play_in_turn(alloc, &plan, level, asked, &mut list, &self.asker);
        Played {
            nodes: Nodes { list },
            total,
            trail: (),
        }
    }
}

/// Plays the round of the level over the nodes, after so many questions were asked of them.
fn play_in_turn<A: Asker>(
    alloc: Global,
    plan: &Plan,
    level: u32,
    asked: u64,
    nodes: &mut [Node<A::Of>],
    asker: &A,
) -> Result<u64, Halt>
    requires ready { (budget : ℕ) × IsReadyRound plan.now level budget asked nodes.old }
    requires asks { A.asks asker.now }
    ensures played { (budget : ℕ) → IsReadyRound plan.now level budget asked nodes.old
        → IsPlayed plan.now level budget nodes.old nodes.new result }
    ensures left { (budget : ℕ) → IsReadyRound plan.now level budget asked nodes.old
        → IsSoundRound plan.now level budget nodes.new }
{
    begin_all(alloc, level, nodes)?;
    let mut total = asked;
    for i in plan.order() {
        let node = &mut nodes[*i as usize];
        total = grant_need(alloc, total, node, asker)?;
        deliver_all(alloc, *i, nodes)?;
    }
    Ok(total)
}

/// Begins the round of the level at each node; want of memory leaves the rest of them as they are.
pub fn begin_all<O: Oracle>(alloc: Global, level: u32, nodes: &mut [Node<O>]) -> Result<(), Memory>
    requires { AllByRecursion (CanBegin level) nodes.old }
    ensures begun { OnOk result (nodes.new ≡ map (begun_at level) nodes.old) }
    ensures some { OnErr result (HaveBegunSome level nodes.old nodes.new) }
    ensures same { map as_new nodes.new ≡ map as_new nodes.old }
{
    for node in nodes.iter_mut() {
        node.begin(alloc, level)?;
    }
    Ok(())
}

/// Grants the node, which waits for it, its need on top of the questions that were asked so far.
/// Then it is done, and the total of both comes back; or it has stopped, or was granted nothing for
/// want of memory.
fn grant_need<A: Asker>(
    alloc: Global,
    asked: u64,
    node: &mut Node<A::Of>,
    asker: &A,
) -> Result<u64, Halt>
    requires waits { WaitsForGrant node.old }
    requires asks { A.asks asker.now }
    ensures done { IfOk result (λ total. FinishesOn asked total node.old node.new) }
    ensures cause { IfErr result (HasGrantCause asked node.old) }
    ensures stopped { OnErr result ((node.new ≡ node.old) ⊎ HasStoppedOn node.old node.new) }
    ensures same { as_new node.new ≡ as_new node.old }
{
    let Some(need) = node.needs() else {
        unreachable!()
    };
    let total = counted(asked, need)?;
    node.grant(alloc, total, asker);
    match node.stopped() {
        Some(halt) => Err(halt),
        None => Ok(total),
    }
}

/// The sum of both, where 64 bits can count it: no memory holds so many questions as they cannot.
pub(crate) fn counted(asked: u64, more: u64) -> Result<u64, Memory>
    ensures sum { IfOk result (λ n. n ≡ asked + more) }
    ensures many { OnErr result (2 ^ 64 ≤ asked + more) }
{
    asked.checked_add(more).ok_or(Memory)
}
