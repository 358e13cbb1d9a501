//! Players: the trait of what plays a round of questions.

ghost use Rattle.std.specs.Prelude.{◌≡◌, ℕ, Bool, List, Result};
ghost use Rattle.std.specs.Arc.{arc_value};
ghost use Rattle.mcs_system.specs.Plain.{System};
ghost use Rattle.mcs_states.specs.declared.halt.Halt.{Halt};
ghost use Rattle.mcs_node.specs.Nodes.{NodeData};
ghost use Rattle.mcs_mesh.specs.Players.{IsPlayed, IsReadyRound};

use crate::nodes::NodeList;
use mcs_import::Plan;
use mcs_states::Halt;
use std::alloc::Global;
use std::sync::Arc;

/// A round of questions that is to be played: those of the level that were not asked before.
#[derive(Drop)]
pub struct Round<N> {
    pub plan: Arc<Plan>,
    pub level: u32,
    /// The most questions of the level that may be asked.
    pub budget: u64,
    /// The number of the questions that were asked before.
    pub asked: u64,
    /// The nodes of the contexts, in order.
    pub nodes: N,
}

/// What is left of a round: all nodes, the number of all questions of its level, or why it stopped,
/// and what the player shows of it besides.
#[derive(Drop)]
pub struct Played<N, T> {
    pub nodes: N,
    pub total: Result<u64, Halt>,
    pub trail: T,
}

/// Plays rounds of questions over the nodes of all contexts.
pub trait Player {
    type Over: NodeList;

    /// What it shows of a round besides the nodes.
    type Trail: Drop;

    /// How many workers play.
    ghost workers: { Self → ℕ };

    /// Whether the round of the last level, which is the number of the rules, is played even where
    /// it has no other questions than one before.
    ghost plays_last: { Bool };

    /// Whether it is.
    fn plays_last_level() -> bool
        ensures { result ≡ plays_last };

    /// Whether the round of each level is played even where it has no other questions than one
    /// before.
    ghost plays_each: { Bool };

    /// Whether it is.
    fn plays_each_level() -> bool
        ensures { result ≡ plays_each };

    /// That it can play, and plays as is said of `play`.
    ghost can_play: { Self → Type 0 };

    /// What holds of the nodes that a round of the system leaves, played by so many workers, of
    /// this level and within this budget, with this total or halt, and of what is shown besides.
    ghost leaves: { ℕ → System → ℕ → ℕ → List NodeData → Result ℕ Halt → Self.Trail → Type 0 };

    /// Plays the round: lets each node have the supplies that it needs, and be asked the questions
    /// of the level that were not asked before. All nodes come back in every case, and of their
    /// oracles nothing but the journals ever changes. Where no halt comes back each node has
    /// finished the round, and the total is the number of all questions of the level, which is
    /// within the budget. `Spent` comes back only if the level has more questions than the budget,
    /// `Missing` only if an oracle lacks the answer to a question of the level. `Memory` may come
    /// back in place of any other answer. The nodes can't be played any more after a halt.
    fn play(&self, alloc: Global, round: Round<Self::Over>) -> Played<Self::Over, Self::Trail>
        requires can { can_play self.now }
        requires ready { IsReadyRound (arc_value round.plan) round.level round.budget round.asked
            (Self.Over.seen round.nodes) }
        ensures played { IsPlayed (arc_value round.plan) round.level round.budget
            (Self.Over.seen round.nodes) (Self.Over.seen result.nodes) result.total }
        ensures left { leaves (workers self.now) (arc_value round.plan) round.level round.budget
            (Self.Over.seen result.nodes) result.total result.trail };
}
