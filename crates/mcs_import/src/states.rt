//! The states that are possible at the inputs of a context.

ghost use Rattle.std.specs.Prelude.{◌≡◌, ◌<◌, ◌++◌, ◌∷◌, ◌↔◌, [], ℕ, map, IfOk};
ghost use Rattle.std.specs.List.{flat_map};
ghost use Rattle.mcs_sets.specs.Sets.{common, union, single, members};
ghost use Rattle.mcs_base.specs.Listings.{IsAmong};
ghost use Rattle.mcs_import.specs.States.{SomeJoins, SomeGrows};

use mcs_base::{Memory, Vars, list_states};
use std::alloc::Global;

/// The restrictions of the states to the mask, each once.
fn restricted(alloc: Global, states: &[Vars], mask: Vars) -> Result<Vec<Vars>, Memory>
    ensures { IfOk result (λ parts. (ρ : ℕ)
        → IsAmong ρ parts.items ↔ IsAmong ρ (map (λ s. common s mask) states.now)) }
{
    let mut parts = Vec::new(alloc);
    for state in states {
        parts.push(state.common(mask))?;
    }
    list_states(&mut parts);
    Ok(parts)
}

/// Appends the unions of the one state with each of the others.
fn add_unions(unions: &mut Vec<Vars>, state: Vars, others: &[Vars]) -> Result<(), Memory>
    ensures { IfOk result (λ _. unions.new.items
        ≡ unions.old.items ++ map (union state) others.now) }
{
    for other in others {
        unions.push(state.union(*other))?;
    }
    Ok(())
}

/// The unions of a state of the first list with one of the second.
fn joined(alloc: Global, states: &[Vars], others: &[Vars]) -> Result<Vec<Vars>, Memory>
    ensures { IfOk result (λ unions. unions.items
        ≡ flat_map (λ s. map (union s) others.now) states.now) }
{
    let mut unions = Vec::new(alloc);
    for state in states {
        add_unions(&mut unions, *state, others)?;
    }
    Ok(unions)
}

/// The states within the mask that one state of each supply yields: the unions of their
/// restrictions to the mask, for each combination.
pub fn supplied_states(
    alloc: Global,
    supplies: &[Vec<Vars>],
    mask: Vars,
) -> Result<Vec<Vars>, Memory>
    ensures { IfOk result (λ states. (ρ : ℕ)
        → IsAmong ρ states.items
        ↔ SomeJoins mask (map (λ supply. supply.items) supplies.now) (0 ∷ []) ρ) }
{
    let mut states = vec![in alloc; Vars::empty()]?;
    for supply in supplies {
        let parts = restricted(alloc, supply, mask)?;
        states = joined(alloc, &states, &parts)?;
    }
    Ok(states)
}

/// Appends each of the states with the variable added.
fn add_with(states: &mut Vec<Vars>, variable: u32) -> Result<(), Memory>
    requires { variable < 64 }
    ensures { IfOk result (λ _. states.new.items
        ≡ states.old.items ++ map (λ s. union s (single variable)) states.old.items) }
{
    for index in 0..states.len() {
        states.push(states[index].with(variable))?;
    }
    Ok(())
}

/// The states with each choice of the guessed variables: each state, united with each subset of
/// these.
pub fn guessed_states(mut states: Vec<Vars>, guessed: Vars) -> Result<Vec<Vars>, Memory>
    ensures { IfOk result (λ all. (ρ : ℕ)
        → IsAmong ρ all.items ↔ SomeGrows (members guessed) states.items ρ) }
{
    for variable in guessed.members() {
        add_with(&mut states, variable)?;
    }
    Ok(states)
}
