//! Replays: events of a round over the nodes of all contexts, in any order.

ghost use Rattle.std.specs.Prelude.{◌≡◌, ◌+◌, ◌<◌, ◌^◌, ◌↔◌, ℕ, List, None, Some, cond, false};
ghost use Rattle.std.specs.Prelude.{true, IfOk, IsTrue, OnOk, map};
ghost use Rattle.mcs_system.specs.Plain.{System};
ghost use Rattle.mcs_states.specs.Evaluators.{KeepsRest};
ghost use Rattle.mcs_states.specs.Oracles.{OracleState};
ghost use Rattle.mcs_node.specs.declared.event.Event.TheVariants as events;
ghost use Rattle.mcs_node.specs.Letters.{LetterData};
ghost use Rattle.mcs_node.specs.Replay.{is_ignored, is_skipped};
ghost use Rattle.mcs_mesh.specs.Players.{as_new};
ghost use Rattle.mcs_mesh.specs.Rounds.{AreNew};
ghost use Rattle.mcs_mesh.specs.Replays.{AreAllDone, AreOfRound, AreToldOf, Begins, GoesOn, Grants};
ghost use Rattle.mcs_mesh.specs.Replays.{IsHandedOut, IsOfRound, LeavesReplay, Receives};
ghost use Rattle.mcs_mesh.specs.Replays.{TellsLowest, course, outcome_of};

use crate::mesh::Mesh;
use crate::turns::counted;
use mcs_base::Memory;
use mcs_node::{Asker, Event, Handled, Letter, Node};
use mcs_ports::Gate;
use mcs_states::{Halt, Oracle};
use std::alloc::Global;

/// What a replay of events tells.
#[derive(Clone, Copy, Debug, PartialEq, Eq)]
pub struct Replay {
    /// How many letters were put out.
    pub put_out: u32,
    /// How many deliveries were ignored.
    pub ignored: u64,
    /// How many events were skipped, since they were not possible.
    pub skipped: u64,
    /// Whether every node is done.
    pub done: bool,
    /// The halt of the lowest of the nodes that stopped by itself.
    pub stopped: Option<Halt>,
}

/// What came of an event.
#[derive(Clone, Copy)]
enum Outcome {
    /// It was not possible.
    Skipped,
    /// Its letter was not taken.
    Ignored,
    /// It took place.
    Taken,
}

/// How many events were not possible, and how many letters were not taken.
#[derive(Clone, Copy)]
struct Counts {
    ignored: u64,
    skipped: u64,
}

impl Counts {
    /// With one outcome more.
    fn with(self, outcome: Outcome) -> Counts
        requires ignored { self.ignored + 1 < 2 ^ 64 }
        requires skipped { self.skipped + 1 < 2 ^ 64 }
        ensures ignored { result.ignored
            ≡ self.ignored + cond (is_ignored (outcome_of outcome)) 1 0 }
        ensures skipped { result.skipped
            ≡ self.skipped + cond (is_skipped (outcome_of outcome)) 1 0 }
    {
        let Counts { ignored, skipped } = self;
        match outcome {
            Outcome::Skipped => Counts {
                ignored,
                skipped: skipped + 1,
            },
            Outcome::Ignored => Counts {
                ignored: ignored + 1,
                skipped,
            },
            Outcome::Taken => self,
        }
    }
}

/// Does the events, one after the other, over the nodes of all contexts, to which nothing has
/// happened, and tells what came of them. An event that is not possible is skipped. A delivery
/// brings a copy of the letter that was put out as number so many, counted from 0. A node is
/// granted its need on top of the needs that were granted so far, and the asker asks its questions.
/// After want of memory nothing is known of the round.
pub(crate) fn replay_events<A: Asker>(
    alloc: Global,
    level: u32,
    nodes: &mut [Node<A::Of>],
    asker: &A,
    events: &[Event],
) -> Result<Replay, Memory>
    requires asks { A.asks asker.now }
    requires new { (m : System) × (budget : ℕ) × (oracles : List OracleState)
        × AreNew m budget oracles nodes.old }
    ensures replayed { (m : System) (budget : ℕ) (oracles : List OracleState)
        → AreNew m budget oracles nodes.old
        → IfOk result (λ told. LeavesReplay m budget level events.now nodes.new told) }
    ensures same { map as_new nodes.new ≡ map as_new nodes.old }
{
    let mut letters = Vec::new(alloc);
    let mut total = 0;
    let mut counts = Counts {
        ignored: 0,
        skipped: 0,
    };
    for event in events {
        let outcome = step(alloc, level, nodes, asker, &mut letters, &mut total, *event)?;
        counts = counts.with(outcome);
    }
    tell(nodes, &letters, counts)
}

/// Does the event, with the letters that were put out and the total that was granted so far.
fn step<A: Asker>(
    alloc: Global,
    level: u32,
    nodes: &mut [Node<A::Of>],
    asker: &A,
    letters: &mut Vec<Letter>,
    total: &mut u64,
    event: Event,
) -> Result<Outcome, Memory>
    requires of_round { AreOfRound level nodes.old }
    requires asks { A.asks asker.now }
    ensures goes { IfOk result (λ outcome. GoesOn level event (outcome_of outcome)
        (course nodes.old letters.old.items total.old)
        (course nodes.new letters.new.items total.new)) }
    ensures same { map as_new nodes.new ≡ map as_new nodes.old }
{
    match event {
        Event::Begin(i) => begin_at(alloc, level, nodes, i),
        Event::Grant(i) => grant_at(alloc, nodes, asker, letters, total, i),
        Event::Deliver(n) => deliver(alloc, nodes, letters, n),
    }
}

/// The node of context `i` begins the round; skipped where there is none, or it has begun.
fn begin_at<O: Oracle>(
    alloc: Global,
    level: u32,
    nodes: &mut [Node<O>],
    i: u32,
) -> Result<Outcome, Memory>
    requires { AreOfRound level nodes.old }
    ensures goes { IfOk result (λ outcome. (letters : List LetterData) (total : ℕ)
        → GoesOn level (events.Begin i) (outcome_of outcome) (course nodes.old letters total)
        (course nodes.new letters total)) }
    ensures same { map as_new nodes.new ≡ map as_new nodes.old }
{
    let here = i as usize;
    if here >= nodes.len() {
        return Ok(Outcome::Skipped);
    }
    begin_node(alloc, level, &mut nodes[here])
}

/// Begins the round, unless the node has begun it.
fn begin_node<O: Oracle>(alloc: Global, level: u32, node: &mut Node<O>) -> Result<Outcome, Memory>
    requires { IsOfRound level node.old }
    ensures begins { IfOk result (λ outcome. Begins level node.old node.new (outcome_of outcome)) }
    ensures same { as_new node.new ≡ as_new node.old }
{
    if node.level().is_some() {
        return Ok(Outcome::Skipped);
    }
    node.begin(alloc, level)?;
    Ok(Outcome::Taken)
}

/// The node of context `i` is granted its need on top of the total; skipped where there is none, or
/// it does not wait for its grant.
fn grant_at<A: Asker>(
    alloc: Global,
    nodes: &mut [Node<A::Of>],
    asker: &A,
    letters: &mut Vec<Letter>,
    total: &mut u64,
    i: u32,
) -> Result<Outcome, Memory>
    requires { A.asks asker.now }
    ensures goes { IfOk result (λ outcome. (level : ℕ)
        → GoesOn level (events.Grant i) (outcome_of outcome)
        (course nodes.old letters.old.items total.old)
        (course nodes.new letters.new.items total.new)) }
    ensures same { map as_new nodes.new ≡ map as_new nodes.old }
{
    let place = i as usize;
    if place >= nodes.len() {
        return Ok(Outcome::Skipped);
    }
    grant_node(alloc, &mut nodes[place], asker, letters, total)
}

/// Grants the node its need on top of the total, where it waits for its grant, and hands out what
/// it puts out.
fn grant_node<A: Asker>(
    alloc: Global,
    node: &mut Node<A::Of>,
    asker: &A,
    letters: &mut Vec<Letter>,
    total: &mut u64,
) -> Result<Outcome, Memory>
    requires { A.asks asker.now }
    ensures grants { IfOk result (λ outcome. Grants node.old node.new letters.old.items
        letters.new.items total.old total.new (outcome_of outcome)) }
    ensures same { as_new node.new ≡ as_new node.old }
{
    let Some(need) = node.needs() else {
        return Ok(Outcome::Skipped);
    };
    let sum = counted(*total, need)?;
    node.grant(alloc, sum, asker);
    hand_out(alloc, node, letters)?;
    *total = sum;
    Ok(Outcome::Taken)
}

/// A copy of the letter that was put out as number `n` comes to its addressee; skipped where there
/// is none, ignored where the letter is not taken.
fn deliver<O: Oracle>(
    alloc: Global,
    nodes: &mut [Node<O>],
    letters: &mut Vec<Letter>,
    n: u32,
) -> Result<Outcome, Memory>
    ensures goes { IfOk result (λ outcome. (level total : ℕ)
        → GoesOn level (events.Deliver n) (outcome_of outcome)
        (course nodes.old letters.old.items total) (course nodes.new letters.new.items total)) }
    ensures same { map as_new nodes.new ≡ map as_new nodes.old }
{
    let Some(letter) = letters.get(n as usize) else {
        return Ok(Outcome::Skipped);
    };
    let to = letter.to() as usize;
    if to >= nodes.len() {
        return Ok(Outcome::Ignored);
    }
    let copy = letter.copy()?;
    receive(alloc, &mut nodes[to], copy, letters)
}

/// The node takes the letter, and what it puts out is handed out; or the letter is ignored.
fn receive<O: Oracle>(
    alloc: Global,
    node: &mut Node<O>,
    letter: Letter,
    letters: &mut Vec<Letter>,
) -> Result<Outcome, Memory>
    ensures receives { IfOk result (λ outcome. Receives letter node.old node.new letters.old.items
        letters.new.items (outcome_of outcome)) }
    ensures same { as_new node.new ≡ as_new node.old }
{
    match node.handle(alloc, letter) {
        Handled::Ignored => Ok(Outcome::Ignored),
        Handled::Took => {
            hand_out(alloc, node, letters)?;
            Ok(Outcome::Taken)
        }
    }
}

/// Hands out all that the node has put out, in order, to the end of the letters.
fn hand_out<O: Oracle>(
    alloc: Global,
    node: &mut Node<O>,
    letters: &mut Vec<Letter>,
) -> Result<(), Memory>
    ensures out { OnOk result (IsHandedOut node.old node.new letters.old.items letters.new.items) }
    ensures same { as_new node.new ≡ as_new node.old }
{
    let mut out = Vec::new(alloc);
    while let Some(letter) = node.next_out() {
        out.push(letter)?;
    }
    out.reverse();
    letters.append(&mut out)?;
    Ok(())
}

/// What is told of nodes that have put out these letters, with these counts.
fn tell<O: Oracle>(nodes: &[Node<O>], letters: &[Letter], counts: Counts) -> Result<Replay, Memory>
    ensures { IfOk result (AreToldOf nodes.now letters.now counts) }
{
    let Ok(put_out) = u32::try_from(letters.len()) else {
        return Err(Memory);
    };
    Ok(Replay {
        put_out,
        ignored: counts.ignored,
        skipped: counts.skipped,
        done: are_all_done(nodes),
        stopped: lowest_halt(nodes),
    })
}

/// Whether every node is done.
fn are_all_done<O: Oracle>(nodes: &[Node<O>]) -> bool
    ensures { IsTrue result ↔ AreAllDone nodes.now }
{
    for node in nodes {
        if !node.is_done() {
            return false;
        }
    }
    true
}

/// The halt of the lowest of the nodes that has stopped by itself.
fn lowest_halt<O: Oracle>(nodes: &[Node<O>]) -> Option<Halt>
    ensures { TellsLowest nodes.now result }
{
    for node in nodes {
        if node.by_itself() {
            return node.stopped();
        }
    }
    None
}

impl<'a, O: Oracle, G: Gate> Mesh<'a, O, G> {
    /// Does the events of a round of the level, one after the other, over the nodes of the
    /// contexts, and tells what came of them. An event that is not possible is skipped; a delivery
    /// brings a copy of the letter that was put out as number so many, counted from 0. So a round
    /// in which the letters come in any order can be played, and looked at (`nodes`). No round was
    /// played before. Afterwards the evaluator can be asked no more, as after a halt; want of
    /// memory leaves it so too.
    pub fn replay(&mut self, alloc: Global, level: u32, events: &[Event]) -> Result<Replay, Memory>
        requires going { self.old.state.halted ≡ false }
        requires first { self.old.last ≡ None }
        ensures replayed { IfOk result (λ told. (self.new.last ≡ Some level)
            × LeavesReplay self.old.state.system self.old.state.budget level events.now
            self.new.nodes told) }
        ensures halted { self.new.state.halted ≡ true }
        ensures rest { KeepsRest self.old.state self.new.state }
    {
        self.replayed = true;
        let nodes = &mut self.nodes.list;
        let told = replay_events(alloc, level, nodes, &self.player.asker, events)?;
        self.trail = Some(());
        self.level = Some(level);
        Ok(told)
    }
}
