//! The states that a context may find at its inputs.

ghost use Rattle.std.specs.Prelude.{◌<◌, ◌↔◌, ◌∷◌, [], ℕ, List, map, length, IfOk};
ghost use Rattle.mcs_sets.specs.Sets.{members};
ghost use Rattle.mcs_base.specs.Listings.{IsAmong};
ghost use Rattle.mcs_system.specs.Imports.{IsImportOrder};
ghost use Rattle.mcs_system.specs.Rows.{inputs_of};
ghost use Rattle.mcs_import.specs.Plans.{guessed};
ghost use Rattle.mcs_import.specs.States.{SomeJoins, SomeGrows};

use mcs_base::{Memory, Vars};
use mcs_import::{Plan, guessed_states, supplied_states};
use std::alloc::Global;

/// The states at the inputs of context `i`: what comes of one state of each supply, with each
/// choice of what is guessed.
pub(crate) fn input_states(
    alloc: Global,
    plan: &Plan,
    i: u32,
    supplies: &[Vec<Vars>],
) -> Result<Vec<Vars>, Memory>
    requires { i < length plan.now.contexts }
    ensures { IfOk result (λ states. (order : List ℕ) → IsImportOrder plan.now order
        → (joined : List ℕ)
        × ((ρ : ℕ) → IsAmong ρ joined ↔ SomeJoins (inputs_of plan.now i)
        (map (λ supply. supply.items) supplies.now) (0 ∷ []) ρ)
        × ((ρ : ℕ) → IsAmong ρ states.items
        ↔ SomeGrows (members (guessed plan.now order i)) joined ρ)) }
{
    let joined = supplied_states(alloc, supplies, plan.system().inputs_of(i))?;
    let states = guessed_states(joined, plan.guessed(i))?;
    Ok(states)
}
