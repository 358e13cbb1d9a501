//! Nodes: one context in one round after the other.

ghost use Rattle.std.specs.Prelude.{◌≡◌, ◌<◌, ◌↔◌, ◌+◌, ℕ, List, [], map, length, slice_index};
ghost use Rattle.std.specs.Prelude.{false, None, IfOk, IfErr, OnOk, OnErr, IfSome, IfNone, IsTrue};
ghost use Rattle.std.specs.Prelude.{MatchOption, Ok, Err, ◌⊎◌};
ghost use Rattle.std.specs.List.{AllByRecursion};
ghost use Rattle.mcs_states.specs.declared.halt.Halt.TheVariants as halts;
ghost use Rattle.std.specs.Arc.{arc_value};
ghost use Rattle.mcs_base.specs.Listings.{IsListing};
ghost use Rattle.mcs_system.specs.Imports.{IsImportOrder};
ghost use Rattle.mcs_rows.specs.Answers.{answered_of};
ghost use Rattle.mcs_node.specs.Rounds.{Supplies};
ghost use Rattle.mcs_node.specs.Letters.{shared_states};
ghost use Rattle.mcs_node.specs.Known.{knowledge_of};
ghost use Rattle.mcs_node.specs.Nodes.{HandsOut, HasTaken, IsAbove, IsAwaited, IsFreshOracle};
ghost use Rattle.mcs_node.specs.Nodes.{IsGranted, IsLocalOf, IsNeed, IsNewNode, IsNodeData};
ghost use Rattle.mcs_node.specs.Nodes.{NodeData, WaitsForGrant, begun_at};
ghost use Rattle.mcs_node.specs.declared.handled.Handled.TheVariants.{Ignored, Took};

use crate::answers::{FoundOut, find_out};
use crate::asking::Asker;
use crate::handled::Handled;
use crate::known::Known;
use crate::letter::Letter;
use crate::receiving::{awaited, take_in};
use crate::round::{InRound, begun_round, done_level, place_of};
use crate::sending::next_letter;
use crate::shared::{copies, lists_of};
use mcs_base::{Memory, Vars};
use mcs_import::Plan;
use mcs_rows::local_rows;
use mcs_states::{Halt, Oracle};
use mcs_table::Table;
use std::alloc::Global;
use std::marker::Model;
use std::mem;
use std::sync::Arc;

/// One context of a system in a round of questions. It has letters from the contexts that supply
/// it, asks its oracle the questions of the level once it is granted to, and puts out letters to
/// the contexts that it supplies.
pub struct Node<O: Oracle> {
    plan: Arc<Plan>,
    context: u32,
    budget: u64,
    // Away only while its questions are asked.
    oracle: Option<O>,
    // The contexts that this one supplies, ascending.
    receivers: Vec<u32>,
    known: Known,
    // The greatest level at which the node was done before the round.
    before: Option<u32>,
    round: Option<InRound>,
}

impl<O: Oracle + Drop> Drop for Node<O> {
    fn drop(self) {
        let Node {
            plan: _,
            context: _,
            budget: _,
            oracle: _,
            receivers: _,
            known: _,
            before: _,
            round: _,
        } = self;
    }
}

impl<O: Oracle> Model for Node<O> {
    ghost use Rattle.std.specs.Prelude.{is_some};
    ghost use Rattle.std.specs.Arc.{arc_value};
    ghost use Rattle.mcs_node.specs.Codes.{coded_node};
    ghost use Rattle.mcs_node.specs.Nodes.{NodeData};
    ghost use Rattle.mcs_node.specs.Known.{knowledge_of};
    ghost use Rattle.mcs_node.specs.Keeping.{IsNode, level_in, oracle_in, outbox_in, state_in};

    ghost Value = { NodeData };

    ghost coded = { coded_node };

    ghost view = { λ n. record {
      plan = arc_value n.plan;
      context = n.context;
      budget = n.budget;
      oracle = oracle_in O.stands n.oracle;
      before = n.before;
      level = level_in n.round;
      state = state_in n.context n.receivers.items n.round;
      receivers = n.receivers.items;
      outbox = outbox_in (arc_value n.plan) n.context n.receivers.items
          (knowledge_of n.known).supplies n.round;
      known = knowledge_of n.known;
    } };

    ghost invariant = { λ n. IsNode (arc_value n.plan) n.context n.budget
        (oracle_in O.stands n.oracle) (is_some n.oracle) n.receivers.items
        (knowledge_of n.known) n.before n.round };
}

impl<O: Oracle> Node<O> {
    /// A node of the context of the plan's system, within a budget of questions, with its oracle,
    /// of which nothing was asked.
    pub fn new(
        alloc: Global,
        plan: Arc<Plan>,
        context: u32,
        budget: u64,
        oracle: O,
    ) -> Result<Node<O>, Memory>
        requires in_range { context < length (arc_value plan).contexts }
        requires own { IsFreshOracle (arc_value plan) context (O.stands oracle) }
        ensures { IfOk result (IsNewNode (arc_value plan) context budget (O.stands oracle)) }
    {
        let receivers = receivers_of(alloc, &plan, context)?;
        Ok(Node {
            plan,
            context,
            budget,
            oracle: Some(oracle),
            receivers,
            known: Known::nothing(alloc),
            before: None,
            round: None,
        })
    }

    /// Begins the round of the level, which is above that of each round begun before; the node has
    /// not stopped. It takes all that the letters of the round need beside what a supply says, so
    /// that a stop takes no memory later, and where it waits for no supply it works out the
    /// questions. The letters of an earlier round that were not handed out are dropped. After want
    /// of memory the node is as before.
    pub fn begin(&mut self, alloc: Global, level: u32) -> Result<(), Memory>
        requires going { self.old.state.halt ≡ None }
        requires above { IsAbove self.old.level level }
        ensures begun { OnOk result (self.new ≡ begun_at level self.old) }
        ensures as_before { OnErr result (self.new ≡ self.old) }
    {
        let round = begun_round(alloc, &self.plan, self.context, level, self.receivers.len())?;
        self.before = done_level(&self.round, self.before);
        self.round = Some(round);
        Ok(())
    }

    /// Takes a letter, or ignores it: exactly where its plan is not this one, its level is not that
    /// of the round begun, it is to another context, its sender does not supply this one, or a
    /// letter of this sender was had in the round; then nothing changes. The first stop stops the
    /// node, which puts out a stop in the place of each letter; want of memory for the questions,
    /// at the last supply, stops it too. A node that has stopped still takes letters.
    pub fn handle(&mut self, alloc: Global, letter: Letter) -> Handled
        ensures took { (result ≡ Took) ↔ IsAwaited letter self.old }
        ensures nothing { result ≡ Ignored → self.new ≡ self.old }
        ensures taken { result ≡ Took → HasTaken letter self.old self.new }
    {
        if letter.plan().is(&self.plan) {
            self.receive(alloc, letter)
        } else {
            Handled::Ignored
        }
    }

    /// Takes a letter of this plan, or ignores it, as `handle` does. The plans are not compared,
    /// which takes time that grows with the system.
    pub fn receive(&mut self, alloc: Global, letter: Letter) -> Handled
        requires same { letter.plan ≡ self.old.plan }
        ensures took { (result ≡ Took) ↔ IsAwaited letter self.old }
        ensures nothing { result ≡ Ignored → self.new ≡ self.old }
        ensures taken { result ≡ Took → HasTaken letter self.old self.new }
    {
        let Some(round) = &mut self.round else {
            return Handled::Ignored;
        };
        let Some(place) = awaited(&self.plan, self.context, round, &letter) else {
            return Handled::Ignored;
        };
        let from = letter.from();
        let content = letter.into_content();
        take_in(alloc, &self.plan, self.context, round, place, from, content);
        Handled::Took
    }

    /// The number of the questions of the round that were not asked before, where the node waits
    /// for its grant: exactly where the round was begun, every supply was had, the node has not
    /// stopped, and it was granted nothing.
    pub fn needs(&self) -> Option<u64>
        ensures { MatchOption result (¬ WaitsForGrant self.now) (λ n. IsNeed self.now n) }
    {
        let round = self.round.as_ref()?;
        if !round.is_ready() {
            return None;
        }
        Some((round.questions.len() - self.known.answers.len()) as u64)
    }

    /// Grants the node, which waits for it, a total: the number of questions asked before the round
    /// and by all nodes granted so far, its own among them. More than the budget stops the node
    /// with `Spent`, before anything is asked. Else the new questions are asked, by the asker, and
    /// the node is done and puts out its supplies; or it stops with `Missing`, for a question that
    /// its oracle lacks, or with want of memory, and puts out stops.
    pub fn grant<A: Asker<Of = O>>(&mut self, alloc: Global, total: u64, asker: &A)
        requires waits { WaitsForGrant self.old }
        requires asks { A.asks asker.now }
        ensures { IsGranted total self.old self.new }
    {
        let Some(mut round) = mem::replace(&mut self.round, None) else {
            unreachable!()
        };
        if total > self.budget {
            let level = round.level;
            let drawn = total;
            round.stop(total, Halt::Spent { level, drawn });
            self.round = Some(round);
            return;
        }
        let Some(oracle) = mem::replace(&mut self.oracle, None) else {
            unreachable!()
        };
        let known = mem::replace(&mut self.known, Known::nothing(alloc));
        let FoundOut { oracle, known } = find_out(
            alloc,
            self.context,
            asker,
            oracle,
            &round.questions,
            known,
        );
        self.oracle = Some(oracle);
        match with_copies(alloc, known, round.envelopes.len()) {
            Ok(finish) => {
                self.known = finish.known;
                round.finish(total, finish.copies);
            }
            Err(halt) => round.stop(total, halt),
        }
        self.round = Some(round);
    }

    /// The next letter that the node has put out; `None` exactly where all were handed out. It
    /// takes no memory.
    pub fn next_out(&mut self) -> Option<Letter>
        ensures { MatchOption result ((self.old.outbox ≡ []) × (self.new ≡ self.old))
            (HandsOut self.old self.new) }
    {
        let round = self.round.as_mut()?;
        next_letter(&self.receivers, self.context, round)
    }

    /// The level of the round that the node has begun; `None` where it has begun none.
    pub fn level(&self) -> Option<u32>
        ensures { result ≡ self.now.level }
    {
        Some(self.round.as_ref()?.level)
    }

    /// Whether all questions to the context were asked in this round.
    pub fn is_done(&self) -> bool
        ensures { result ≡ self.now.state.done }
    {
        match &self.round {
            Some(round) => round.is_done(),
            None => false,
        }
    }

    /// Why the node has stopped in this round; `None` exactly where it has not.
    pub fn stopped(&self) -> Option<Halt>
        ensures { result ≡ self.now.state.halt }
    {
        self.round.as_ref()?.halt()
    }

    /// Whether the node has stopped by itself in this round, and not by a letter.
    pub fn by_itself(&self) -> bool
        ensures { result ≡ self.now.state.by_itself }
    {
        match &self.round {
            Some(round) => round.is_by_itself(),
            None => false,
        }
    }

    /// What is known of the context: the answers to all questions of the greatest level at which
    /// the node was done, and what it may supply there, as long as the node has not stopped.
    pub fn known(&self) -> &Known
        ensures known { knowledge_of result.now ≡ self.now.known }
        ensures node { IsNodeData self.now }
    {
        &self.known
    }

    /// All local rows of the context at the level of the round, as a table on its local variables;
    /// `None` exactly where the node is not done. They are made when they are asked for. There may
    /// be 4 to the number of its rules of them, and an evaluation wants few of these, so it does
    /// not call this.
    pub fn local(&self, alloc: Global) -> Result<Option<Table>, Memory>
        ensures { IfOk result (λ local. MatchOption local (self.now.state.done ≡ false)
            (IsLocalOf self.now)) }
    {
        let Some(round) = &self.round else {
            return Ok(None);
        };
        if !round.is_done() {
            return Ok(None);
        }
        let told = lists_of(alloc, &round.told)?;
        let table = local_rows(
            alloc,
            &self.plan,
            self.context,
            &told,
            &self.known.answers,
            round.level,
        )?;
        Ok(Some(table))
    }

    /// The oracle, back.
    pub fn take_oracle(self) -> O
        ensures { O.stands result ≡ self.oracle }
    {
        let Node {
            plan: _,
            context: _,
            budget: _,
            oracle,
            receivers: _,
            known: _,
            before: _,
            round: _,
        } = self;
        match oracle {
            Some(oracle) => oracle,
            None => unreachable!(),
        }
    }
}

/// The contexts that the context of the plan's system supplies, ascending.
fn receivers_of(alloc: Global, plan: &Plan, context: u32) -> Result<Vec<u32>, Memory>
    ensures { IfOk result (λ receivers. IsListing (Supplies plan.now context)
        (λ a b. a < b) receivers.items) }
{
    let mut receivers = Vec::new(alloc);
    for other in 0..plan.system().contexts().len() as u32 {
        if is_supplied(plan, other, context) {
            receivers.push(other)?;
        }
    }
    Ok(receivers)
}

/// Whether the other context of the plan's system is supplied by this one.
fn is_supplied(plan: &Plan, other: u32, context: u32) -> bool
    requires { other < length plan.now.contexts }
    ensures { IsTrue result ↔ Supplies plan.now context other }
{
    match place_of(plan.supplied(other), context) {
        Some(_) => true,
        None => false,
    }
}

/// What a node keeps once it is done.
#[derive(Drop)]
struct Finish {
    known: Known,
    copies: Vec<Arc<Vec<Vars>>>,
}

/// What is known, with a list of the supplies that so many letters share.
fn with_copies(alloc: Global, known: Result<Known, Halt>, letters: usize) -> Result<Finish, Halt>
    ensures known { IfOk result (λ r. known ≡ Ok r.known) }
    ensures copies { IfOk result (λ r. (length r.copies.items ≡ letters)
        × AllByRecursion (λ copy. shared_states copy ≡ r.known.supplies.items) r.copies.items) }
    ensures cause { IfErr result (λ halt. (halt ≡ halts.Memory) ⊎ (known ≡ Err halt)) }
{
    let known = known?;
    let copies = copies(alloc, &known.supplies, letters)?;
    Ok(Finish { known, copies })
}
