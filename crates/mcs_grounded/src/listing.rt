//! The grounded equilibria of a system, found by any evaluator.

ghost use Rattle.std.specs.Prelude.{◌≡◌, false, IfOk};
ghost use Rattle.mcs_states.specs.Calls.{AsksEvaluator, CanEvaluate};
ghost use Rattle.mcs_reduct.specs.Grounded.{AreAllStates, AreGrounded};
ghost use Rattle.mcs_reduct.specs.Plain.{IsPlain};

use crate::basis::Derivation;
use crate::bounds::Bounds;
use crate::cone::cones_of;
use crate::found::no_solvers;
use crate::places::{Places, heads_placed, reads_placed};
use crate::search::search;
use mcs_base::{Marks, Memory, Pair, Vars};
use mcs_equilibria::list_states;
use mcs_states::{Evaluator, Halt};
use mcs_system::System;
use std::alloc::Global;

/// The grounded ones among the projected equilibria of the system, in the order of states. The
/// system has to be plain, and the states are all its projected equilibria, in this order. No
/// question is asked.
pub fn grounded_among(alloc: Global, system: &System, states: &[Vars]) -> Result<Vec<Vars>, Memory>
    requires plain { IsPlain system.now }
    requires states { AreAllStates system.now states.now }
    ensures { IfOk result (λ grounded. AreGrounded system.now grounded.items) }
{
    let places = Places {
        heads: heads_placed(system),
        reads: reads_placed(system),
    };
    let cones = cones_of(alloc, system, &places)?;
    let bounds = Bounds::of(&cones);
    let mut found = no_solvers(alloc, system)?;
    let mut grounded = Vec::new(alloc);
    for state in states {
        let derivation = Derivation {
            system,
            places: &places,
            cones: &cones,
            state: *state,
            goal: system.applicable_rules(*state),
        };
        if search(alloc, &derivation, &mut found, &bounds)? {
            grounded.push(*state)?;
        }
    }
    Ok(grounded)
}

/// The projections of the grounded equilibria of the system, in the order of states. The evaluator
/// has to be one of this system, and the system has to be plain. The level of the call is 0. The
/// answer sets that the call finds by itself are no questions.
pub fn list_grounded<E: Evaluator>(
    alloc: Global,
    evaluator: &mut E,
    system: &System,
) -> Result<Vec<Vars>, Halt>
    requires evaluator { CanEvaluate system.now (E.stands evaluator.old) }
    requires plain { IsPlain system.now }
    ensures listing { IfOk result (λ grounded. AreGrounded system.now grounded.items) }
    ensures call { AsksEvaluator 0 (E.stands evaluator.old) (E.stands evaluator.new) result }
{
    let states = list_states(alloc, evaluator, Pair::new(Marks::empty()))?;
    Ok(grounded_among(alloc, system, &states)?)
}
