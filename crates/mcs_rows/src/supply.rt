//! What a context may supply.

ghost use Rattle.std.specs.Prelude.{ℕ, map, IfOk};
ghost use Rattle.std.specs.List.{flat_map};
ghost use Rattle.mcs_base.specs.Listings.{IsAmong, IsListing};
ghost use Rattle.mcs_sets.specs.Orders.{StateBefore};
ghost use Rattle.mcs_system.specs.Levels.{MaySupply};
ghost use Rattle.mcs_system.specs.Plain.{System};
ghost use Rattle.mcs_rows.specs.Answers.{answered_of};
ghost use Rattle.mcs_rows.specs.Local.{AreAnswered};
ghost use Rattle.mcs_rows.specs.declared.answer.Answer as declared;

use crate::answer::Answer;
use mcs_base::{Memory, Vars, list_states};
use std::alloc::Global;

/// What the context may supply whose answers these are: the parts of all answers, each once, in the
/// order of states. The answers are those to all questions of a level.
pub fn supplies(alloc: Global, answers: &[Answer]) -> Result<Vec<Vars>, Memory>
    ensures parts { IfOk result (λ s. IsListing (λ τ.
        IsAmong τ (flat_map (λ (a : declared.Answer). a.parts.items)
        answers.now)) StateBefore s.items) }
    ensures supplied { IfOk result (λ s. (m : System) (level i : ℕ)
        → AreAnswered m level i (map answered_of answers.now)
        → IsListing (MaySupply m level i) StateBefore s.items) }
{
    let mut states = Vec::new(alloc);
    for answer in answers {
        states.extend_from_slice(&answer.parts)?;
    }
    list_states(&mut states);
    Ok(states)
}
