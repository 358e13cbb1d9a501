//! The evaluator, whoever plays its rounds.

ghost use Rattle.std.specs.Prelude.{◌≡◌, ◌<◌, ℕ, true, false, Some, None, IfOk, IfErr, OnOk, map};
ghost use Rattle.std.specs.Prelude.{length};
ghost use Rattle.mcs_states.specs.Evaluators.{KeepsRest, HasDone, HasHalted};
ghost use Rattle.std.specs.Arc.{arc_value};
ghost use Rattle.std.specs.Option.{option_copied};
ghost use Rattle.mcs_mesh.specs.Players.{oracles_of, AreNodesOf};
ghost use Rattle.mcs_mesh.specs.Rounds.{evaluator_state_of, AreFresh, AreNew, HasLastRound};
ghost use Rattle.mcs_mesh.specs.Rounds.{HasShown, IsHaltOfRound, IsLastRound};

use crate::answering::{changed_first, changed_states};
use crate::found::{Found, is_reached};
use crate::lasting::is_left_out;
use crate::nodes::NodeList;
use crate::player::{Played, Player, Round};
use mcs_base::{Marks, Memory, Pair, Vars};
use mcs_costs::{CheapestEvaluator, Settling};
use mcs_import::Plan;
use mcs_states::{Evaluator, Halt};
use std::alloc::Global;
use std::marker::Model;
use std::mem;
use std::sync::Arc;

/// Evaluates a system: a player plays rounds over the nodes of its contexts, in which their oracles
/// are asked the questions of a level, and for what is asked of it the evaluation makes rows of
/// each and joins these in one final step.
///
/// It is seen as its evaluator, the level of the last round that was played, if one was, and its
/// nodes.
#[derive(Drop)]
pub struct Evaluation<P: Player + Drop> {
    plan: Arc<Plan>,
    pub(crate) player: P,
    pub(crate) nodes: P::Over,
    budget: u64,
    // The greatest level done. It may be above that of the last round, and has then the same
    // questions and rows.
    done: Option<u32>,
    // The level of the last round that was played, if one was.
    pub(crate) level: Option<u32>,
    // What the player has shown of that round.
    pub(crate) trail: Option<P::Trail>,
    // The number of the questions of the greatest level done.
    asked: u64,
    halt: Option<Halt>,
    // Whether events were replayed over the nodes: then nothing more is asked.
    pub(crate) replayed: bool,
    found: Found,
}

impl<P: Player + Drop> Model for Evaluation<P> {
    ghost use Rattle.std.specs.Prelude.{◌≡◌, ℕ, true, None, Some};
    ghost use Rattle.std.specs.Arc.{arc_value};
    ghost use Rattle.mcs_mesh.specs.Rounds.{EvaluationData, HasLastRound, HasShown, IsEvaluation};
    ghost use Rattle.mcs_mesh.specs.Rounds.{IsHaltOfRound, coded_evaluation, evaluation_of};
    ghost use Rattle.mcs_mesh.specs.Found.{AreRepairsFound};

    ghost Value = { EvaluationData };

    ghost coded = { coded_evaluation };

    ghost view = { λ l. evaluation_of (P.workers l.player)
        (arc_value l.plan) l.budget l.done l.halt l.replayed l.level (P.Over.seen l.nodes) };

    ghost invariant = { λ l. IsEvaluation (evaluation_of (P.workers l.player)
        (arc_value l.plan) l.budget l.done l.halt l.replayed l.level (P.Over.seen l.nodes)) l.asked
        × AreRepairsFound (arc_value l.plan) l.found.level l.found.pairs.items
        × P.can_play l.player
        × ((level : ℕ) → l.level ≡ Some level → HasShown
        (P.leaves (P.workers l.player) (arc_value l.plan) level l.budget (P.Over.seen l.nodes))
        l.halt l.trail)
        × (P.plays_last ≡ true → l.halt ≡ None → HasLastRound (arc_value l.plan) l.done l.level)
        × IsHaltOfRound l.budget l.level l.halt
        × (l.level ≡ None → l.trail ≡ None)
        × (P.plays_each ≡ true → l.halt ≡ None → l.level ≡ l.done) };
}

/// What an evaluation leaves: its nodes, and what its player has shown of its last round.
#[derive(Drop)]
pub struct Parts<N, T> {
    pub nodes: N,
    pub trail: Option<T>,
}

impl<P: Player + Drop> Evaluation<P> {
    /// An evaluator of the plan's system within a budget of questions, over new nodes, one for each
    /// context, in order, of which none was asked. The player plays its rounds.
    pub fn played_by(
        alloc: Global,
        plan: Arc<Plan>,
        nodes: P::Over,
        budget: u64,
        player: P,
    ) -> Evaluation<P>
        requires new { AreNew (arc_value plan) budget (oracles_of (P.Over.seen nodes))
            (P.Over.seen nodes) }
        requires own { AreFresh (arc_value plan) (oracles_of (P.Over.seen nodes)) }
        requires can { P.can_play player }
        ensures state { result.state ≡ evaluator_state_of (P.workers player)
            (arc_value plan) budget None None (oracles_of (P.Over.seen nodes)) }
        ensures none { result.last ≡ None }
    {
        Evaluation {
            plan,
            player,
            nodes,
            budget,
            done: None,
            level: None,
            trail: None,
            asked: 0,
            halt: None,
            replayed: false,
            found: Found {
                level: None,
                pairs: Vec::new(alloc),
                many: false,
            },
        }
    }

    /// Does the round of the level, unless it, or that of a greater one, was done, or it has no
    /// other questions and rows than the greatest one done. That of the last level, or of each
    /// level, is played all the same if the player plays this.
    fn reach(&mut self, alloc: Global, level: u32) -> Result<(), Halt>
        requires { self.old.state.halted ≡ false }
        ensures done { OnOk result (HasDone self.old.state self.new.state level) }
        ensures halt { IfErr result (HasHalted self.old.state self.new.state level) }
        ensures rest { KeepsRest self.old.state self.new.state }
    {
        if is_reached(self.done, level) {
            return Ok(());
        }
        if is_left_out::<P>(self.plan.system(), self.done, level) {
            self.done = Some(level);
            return Ok(());
        }
        self.play(alloc, level)
    }

    /// Plays the round of the level, which is above the greatest one done.
    fn play(&mut self, alloc: Global, level: u32) -> Result<(), Halt>
        requires going { self.old.state.halted ≡ false }
        requires above { (d : ℕ) → self.old.state.done ≡ Some d → d < level }
        ensures done { OnOk result (HasDone self.old.state self.new.state level) }
        ensures halt { IfErr result (HasHalted self.old.state self.new.state level) }
        ensures rest { KeepsRest self.old.state self.new.state }
    {
        let Ok(plan) = Arc::try_clone(&self.plan) else {
            return Err(Halt::Memory.kept_in(&mut self.halt));
        };
        let round = Round {
            plan,
            level,
            budget: self.budget,
            asked: self.asked,
            nodes: mem::replace(&mut self.nodes, P::Over::none(alloc)),
        };
        let Played {
            nodes,
            total,
            trail,
        } = self.player.play(alloc, round);
        self.nodes = nodes;
        self.trail = Some(trail);
        self.level = Some(level);
        match total {
            Ok(total) => {
                self.asked = total;
                self.done = Some(level);
                Ok(())
            }
            Err(halt) => Err(halt.kept_in(&mut self.halt)),
        }
    }

    /// The nodes, back, and what the player has shown of the last round, if one was played. Unless
    /// the evaluation has halted, that round was of the greatest level done, or of one below it
    /// with the same questions and rows. Where the player plays the last level, it was of that
    /// level if this was done; where it plays each level, it was of the greatest level done. A halt
    /// other than want of memory is that of this round.
    pub fn into_parts(self) -> Parts<P::Over, P::Trail>
        ensures nodes { P.Over.seen result.nodes ≡ self.nodes }
        ensures oracles { self.state.oracles ≡ oracles_of (P.Over.seen result.nodes) }
        ensures own { AreNodesOf self.state.system self.state.budget (P.Over.seen result.nodes) }
        ensures shown { (level : ℕ) → self.last ≡ Some level
            → HasShown (P.leaves self.state.workers self.state.system level self.state.budget
            self.nodes) self.state.halt result.trail }
        ensures unshown { self.last ≡ None → result.trail ≡ None }
        ensures last { self.state.halted ≡ false
            → IsLastRound self.state.system self.last self.state.done }
        ensures reaches { P.plays_last ≡ true → self.state.halted ≡ false
            → HasLastRound self.state.system self.state.done self.last }
        ensures each { P.plays_each ≡ true → self.state.halted ≡ false
            → self.last ≡ self.state.done }
        ensures halt { IsHaltOfRound self.state.budget self.last self.state.halt }
    {
        let Evaluation { nodes, trail, .. } = self;
        Parts { nodes, trail }
    }

    /// What the player has shown of the last round, if one was played.
    pub fn trail(&self) -> Option<&P::Trail>
        ensures shown { (level : ℕ) → self.now.last ≡ Some level
            → HasShown (P.leaves self.now.state.workers self.now.state.system level
            self.now.state.budget self.now.nodes) self.now.state.halt (option_copied result) }
        ensures unshown { self.now.last ≡ None → option_copied result ≡ None }
    {
        self.trail.as_ref()
    }

    /// The oracles, back, one for each context, in order.
    pub fn into_oracles(self) -> Result<Vec<<P::Over as NodeList>::Of>, Memory>
        ensures { IfOk result (λ oracles. map P.Over.Of.stands oracles.items ≡ self.state.oracles) }
    {
        let Evaluation { nodes, .. } = self;
        nodes.into_oracles()
    }
}

impl<P: Player + Drop> Evaluator for Evaluation<P> {
    ghost stands = { λ e. e.state };

    fn repairs(&mut self, alloc: Global, level: u32) -> Result<Vec<Marks>, Halt> {
        self.reach(alloc, level)?;
        let done = self.done.unwrap_or(level);
        match self
            .found
            .repairs(alloc, &self.plan, &self.nodes, done, level)
        {
            Ok(pairs) => Ok(pairs),
            Err(Memory) => Err(Halt::Memory.kept_in(&mut self.halt)),
        }
    }

    fn states(&mut self, alloc: Global, pair: Pair) -> Result<Vec<Vars>, Halt> {
        self.reach(alloc, pair.marks().count())?;
        match changed_states(alloc, &self.plan, &self.nodes, pair) {
            Ok(states) => Ok(states),
            Err(Memory) => Err(Halt::Memory.kept_in(&mut self.halt)),
        }
    }

    fn first_state(&mut self, alloc: Global, pair: Pair) -> Result<Option<Vars>, Halt> {
        self.reach(alloc, pair.marks().count())?;
        match changed_first(alloc, &self.plan, &self.nodes, pair) {
            Ok(first) => Ok(first),
            Err(Memory) => Err(Halt::Memory.kept_in(&mut self.halt)),
        }
    }

    fn asked(&self) -> u64 {
        self.asked
    }

    fn halted(&self) -> bool {
        self.halt.is_some() || self.replayed
    }
}

impl<P: Player + Drop> CheapestEvaluator for Evaluation<P> {
    fn reach(&mut self, alloc: Global, level: u32) -> Result<(), Halt> {
        Evaluation::reach(self, alloc, level)
    }

    fn cheapest(&mut self, alloc: Global, level: u32) -> Result<Settling, Halt> {
        Evaluation::reach(self, alloc, level)?;
        let done = self.done.unwrap_or(level);
        match self
            .found
            .cheapest(alloc, &self.plan, &self.nodes, done, level)
        {
            Ok(told) => Ok(told),
            Err(Memory) => Err(Halt::Memory.kept_in(&mut self.halt)),
        }
    }
}
