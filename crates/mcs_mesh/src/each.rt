//! A player that plays the round of each level.

ghost use Rattle.std.specs.Prelude.{◌≡◌, true};
ghost use Rattle.std.specs.Arc.{arc_value};
ghost use Rattle.mcs_mesh.specs.Players.{IsPlayed, IsReadyRound};

use crate::player::{Played, Player, Round};
use std::alloc::Global;

/// Plays as another player does, but the round of each level, even where it has no other questions
/// than one before. So the last round is that of the greatest level done, whichever this is.
#[derive(Drop)]
pub struct EachLevel<P> {
    player: P,
}

impl<P> EachLevel<P> {
    /// Plays as this player does.
    pub fn new(player: P) -> EachLevel<P>
        ensures { result.player ≡ player }
    {
        EachLevel { player }
    }
}

impl<P: Player> Player for EachLevel<P> {
    type Over = P::Over;

    type Trail = P::Trail;

    ghost workers = { λ e. P.workers e.player };

    ghost plays_last = { P.plays_last };

    ghost plays_each = { true };

    ghost can_play = { λ e. P.can_play e.player };

    ghost leaves = { P.leaves };

    fn plays_last_level() -> bool {
        P::plays_last_level()
    }

    fn plays_each_level() -> bool {
        true
    }

    fn play(&self, alloc: Global, round: Round<P::Over>) -> Played<P::Over, P::Trail>
        requires can { P.can_play self.now.player }
        requires ready { IsReadyRound (arc_value round.plan) round.level round.budget round.asked
            (P.Over.seen round.nodes) }
        ensures played { IsPlayed (arc_value round.plan) round.level round.budget
            (P.Over.seen round.nodes) (P.Over.seen result.nodes) result.total }
        ensures left { P.leaves (P.workers self.now.player) (arc_value round.plan) round.level
            round.budget (P.Over.seen result.nodes) result.total result.trail }
    {
        self.player.play(alloc, round)
    }
}
