//! A player whose rounds are played by threads, through a closure that is handed to it.

ghost use Rattle.std.specs.Prelude.{◌≡◌, false, true};
ghost use Rattle.std.specs.Arc.{arc_value};
ghost use Rattle.mcs_mesh.specs.Players.{IsPlayed, IsReadyRound};
ghost use Rattle.mcs_crew.specs.Crews.{PlaysRounds};
ghost use Rattle.mcs_crew.specs.Told.{HasEnded};
ghost use Rattle.mcs_crew.specs.Trails.{IsTrail, trail_of};

use crate::trail::Trail;
use mcs_mesh::{Evaluation, NodeList, Played, Player, Round};
use std::alloc::Global;
use std::marker::PhantomData;

/// Evaluates a system with worker threads. The closure plays its rounds: it is made where the
/// handles of threads are at hand, and where it is known that oracles may go to other threads, and
/// calls `play_in_threads`.
pub type Crew<'a, N, F> = Evaluation<CrewPlayer<'a, N, F>>;

/// Plays rounds by so many workers, through a closure.
#[derive(Drop)]
pub struct CrewPlayer<'a, N, F> {
    play: &'a F,
    workers: u32,
    over: PhantomData<N>,
}

impl<'a, N, F> CrewPlayer<'a, N, F> {
    /// Plays by the closure, which has rounds played by so many workers.
    pub fn new(play: &'a F, workers: u32) -> CrewPlayer<'a, N, F>
        ensures play { result.play.now ≡ play.now }
        ensures workers { result.workers ≡ workers }
    {
        CrewPlayer {
            play,
            workers,
            over: PhantomData,
        }
    }
}

impl<'a, N: NodeList, F: Fn(Round<N>) -> Played<N, Trail>> Player for CrewPlayer<'a, N, F> {
    type Over = N;

    type Trail = Trail;

    ghost workers = { λ p. p.workers };

    ghost plays_last = { true };

    ghost plays_each = { false };

    ghost can_play = { λ p. PlaysRounds p.workers (λ r. arc_value r.plan) (λ r. r.level)
        (λ r. r.budget) (λ r. r.asked) (λ r. N.seen r.nodes) (λ s. N.seen s.nodes) (λ s. s.total)
        (λ s. trail_of s.trail) F.pre F.post p.play.now };

    ghost leaves = { λ workers m level budget nodes total trail.
        IsTrail m level workers nodes total (trail_of trail) × HasEnded m level nodes total };

    fn plays_last_level() -> bool {
        true
    }

    fn plays_each_level() -> bool {
        false
    }

    #[tactic(auto, using(crate::proofs::ToldLemmas::has_ended))]
    fn play(&self, _alloc: Global, round: Round<N>) -> Played<N, Trail>
        requires can { PlaysRounds self.now.workers (λ r. arc_value r.plan) (λ r. r.level)
            (λ r. r.budget) (λ r. r.asked) (λ r. N.seen r.nodes) (λ s. N.seen s.nodes)
            (λ s. s.total) (λ s. trail_of s.trail) F.pre F.post self.now.play.now }
        requires ready { IsReadyRound (arc_value round.plan) round.level round.budget round.asked
            (N.seen round.nodes) }
        ensures played { IsPlayed (arc_value round.plan) round.level round.budget
            (N.seen round.nodes) (N.seen result.nodes) result.total }
        ensures left { IsTrail (arc_value round.plan) round.level self.now.workers
            (N.seen result.nodes) result.total (trail_of result.trail)
            × HasEnded (arc_value round.plan) round.level (N.seen result.nodes) result.total }
    {
        (self.play)(round)
    }
}
