//! Diagnoses that are shown, each once.

ghost use Rattle.std.specs.Prelude.{◌≡◌, ◌+◌, ℕ, IfSome};
ghost use Rattle.mcs_base.specs.Listings.{IsAmong};
ghost use Rattle.mcs_states.specs.Evaluators.{EvaluatorState};
ghost use Rattle.mcs_costs.specs.Settling.{AreDiagnosesUpTo};
ghost use Rattle.mcs_cheapest.specs.Found.{Searches};
ghost use Rattle.mcs_cheapest.specs.Least.{AreShown, CanShow, IsAsking};

use mcs_base::{Marks, Pair};
use mcs_diagnosis::{Diagnosis, show};
use mcs_states::{Evaluator, Halt};
use mcs_system::System;
use std::alloc::Global;

/// The diagnoses of these pairs, in their order. Those that were shown before are taken from there.
/// Where the pairs have at most as many marks as the greatest level done says, no other level is
/// taken.
pub(crate) fn show_each<E: Evaluator>(
    alloc: Global,
    evaluator: &mut E,
    system: &System,
    pairs: &[Marks],
    before: &[Diagnosis],
) -> Result<Vec<Diagnosis>, Halt>
    requires { CanShow system.now (E.stands evaluator.old) pairs.now before.now }
    ensures { (first : EvaluatorState) (level : ℕ)
        → IsAsking first (E.stands evaluator.old) (level + 1)
        → AreDiagnosesUpTo system.now level pairs.now
        → Searches (λ found. AreShown system.now pairs.now found.items
        × IsAsking first (E.stands evaluator.new) (level + 1))
        first (E.stands evaluator.new) result }
{
    let mut found = Vec::new(alloc);
    for marks in pairs {
        let pair = Pair::new(*marks);
        let shown = match shown_before(before, pair) {
            Some(shown) => shown,
            None => show(alloc, evaluator, system, pair)?,
        };
        found.push(shown)?;
    }
    Ok(found)
}

/// The diagnosis of the pair, if it was shown before. It is found where they are in the order of
/// pairs.
fn shown_before(before: &[Diagnosis], pair: Pair) -> Option<Diagnosis>
    ensures { IfSome result (λ shown. IsAmong shown before.now × (shown.pair ≡ pair)) }
{
    let marks = pair.marks();
    let place = before
        .binary_search_by_key(&marks, |shown| shown.pair.marks())
        .ok()?;
    let shown = *before.get(place)?;
    (shown.pair == pair).then_some(shown)
}
