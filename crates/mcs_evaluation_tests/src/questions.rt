//! What a context is asked where another one supplies it.

ghost use Rattle.std.specs.Prelude.{◌≡◌, ◌∷◌, ◌<◌, ℕ, List, [], IfOk, IfSome, length};
ghost use Rattle.mcs_sets.specs.Orders.{StateBefore};
ghost use Rattle.mcs_base.specs.Listings.{IsListing};
ghost use Rattle.mcs_system.specs.Imports.{IsImportOrder, supplied};
ghost use Rattle.mcs_system.specs.Levels.{MaySupply};
ghost use Rattle.mcs_import.specs.Plans.{AreSupplies};

use crate::systems::{FORBIDDEN, system_of};
use mcs_base::{Active, Memory, Vars};
use mcs_import::{Plan, questions};
use mcs_rows::{Answer, supplies};
use mcs_solver::accepted_parts;
use std::alloc::Global;
use std::test::Fail;

/// The question, where it is the only one.
fn only_question(asked: &[Active]) -> Option<Active>
    ensures { IfSome result (λ question. asked.now ≡ question ∷ []) }
{
    match asked {
        [question] => Some(*question),
        _ => None,
    }
}

/// What the first context may supply at the level, where nothing supplies it and it has one
/// question.
fn first_supplies(alloc: Global, plan: &Plan, level: u32) -> Result<Option<Vec<Vars>>, Memory>
    requires in_range { 0 < length plan.now.contexts }
    requires supplied { (order : List ℕ) → IsImportOrder plan.now order
        → AreSupplies plan.now level (supplied plan.now order 0) [] }
    ensures { IfOk result (λ found. IfSome found (λ states.
        IsListing (MaySupply plan.now level 0) StateBefore states.items)) }
{
    let asked = questions(alloc, plan, 0, &[], level)?;
    let Some(active) = only_question(&asked) else {
        return Ok(None);
    };
    let parts = accepted_parts(alloc, plan.system(), 0, active)?;
    let mut answers = Vec::new(alloc);
    answers.push(Answer { active, parts })?;
    Ok(Some(supplies(alloc, &answers)?))
}

/// Whether the second context is supplied by the first one alone, which nothing supplies, and these
/// are its questions of the level, as bits of a number.
fn are_questions(alloc: Global, plan: &Plan, level: u32, sets: &[u64]) -> Result<bool, Memory> {
    if plan.system().contexts().len() != 2
        || !plan.supplied(0).is_empty()
        || plan.supplied(1) != [0].as_slice()
    {
        return Ok(false);
    }
    let Some(states) = first_supplies(alloc, plan, level)? else {
        return Ok(false);
    };
    let found = questions(alloc, plan, 1, &[states], level)?;
    Ok(are_sets(&found, sets))
}

/// Whether the sets are those of these numbers.
fn are_sets(found: &[Active], sets: &[u64]) -> bool {
    let mut same = found.len() == sets.len();
    for (set, number) in found.iter().zip(sets) {
        same = same && *set == Active::numbered(*number);
    }
    same
}

/// A level, and what the second context is asked at it.
static LEVELS: [(u32, &[u64]); 3] = [
    (0, &[0b11]),
    (1, &[0b01, 0b10, 0b11]),
    (2, &[0b00, 0b01, 0b10, 0b11]),
];

#[test]
fn asks_by_what_is_supplied(rt: HostRuntime) -> Result<(), Fail> {
    let plan = Plan::of(rt.alloc(), system_of(rt.alloc(), FORBIDDEN)?)?;
    let mut are_right = true;
    for (level, sets) in &LEVELS {
        are_right &= are_questions(rt.alloc(), &plan, *level, sets) == Ok(true);
    }
    drop(plan);
    assert!(rt; are_right);
    Ok(())
}
