//! Whether levels above one have the same questions and rows.

ghost use Rattle.std.specs.Prelude.{◌≡◌, ◌<◌, ◌≤◌, ℕ, Some, IsTrue, length, true};
ghost use Rattle.mcs_mesh.specs.Rounds.{changeable, HasFewRules};

use crate::player::Player;
use mcs_base::{Active, Pair};
use mcs_system::System;

/// The rules that a repair may remove or force.
fn changeable(system: &System) -> Active
    ensures { result ≡ changeable system.now }
{
    let allowed = Pair::new(system.allowed());
    allowed.removed().union(allowed.forced())
}

/// Whether no context has more than so many rules into it that a repair may change: each higher
/// level has then the same questions, and the contexts have the same rows.
pub(crate) fn has_few_rules(system: &System, level: u32) -> bool
    ensures { IsTrue result → HasFewRules system.now level }
{
    let changeable = changeable(system);
    for context in 0..system.contexts().len() as u32 {
        if system.rules_of(context).common(changeable).count() > level {
            return false;
        }
    }
    true
}

/// Whether a level was done, and each level above the greatest one done has the same questions and
/// rows.
fn is_all_done(system: &System, done: Option<u32>) -> bool
    ensures { IsTrue result → (d : ℕ) × (done ≡ Some d) × HasFewRules system.now d }
{
    match done {
        Some(done) => has_few_rules(system, done),
        None => false,
    }
}

/// Whether the round of the level is left out: it has the same questions and rows as that of the
/// greatest level done. The player has that of the last level, or that of each level, played all
/// the same, if it plays this.
pub(crate) fn is_left_out<P: Player>(system: &System, done: Option<u32>, level: u32) -> bool
    ensures done { result ≡ true → (d : ℕ) × (done ≡ Some d) × HasFewRules system.now d }
    ensures last { result ≡ true → P.plays_last ≡ true → ¬ (level ≡ length system.now.bridges) }
    ensures each { result ≡ true → ¬ (P.plays_each ≡ true) }
{
    if P::plays_each_level() {
        return false;
    }
    if P::plays_last_level() && level as usize == system.bridges().len() {
        return false;
    }
    is_all_done(system, done)
}

/// Up to which level repairs are searched for when this one is asked for. If each level above it
/// has the same rows, it is twice this level, so that few levels need a final step of their own. If
/// no repair has more marks, it is the highest level there is.
pub(crate) fn level_ahead(system: &System, level: u32) -> u32
    ensures no_less { level ≤ result }
    ensures above { level < result → HasFewRules system.now level }
{
    if !has_few_rules(system, level) {
        return level;
    }
    if changeable(system).count() <= level {
        return u32::MAX;
    }
    level.saturating_mul(2)
}
