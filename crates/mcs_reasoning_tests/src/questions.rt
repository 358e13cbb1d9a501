//! What contexts are asked.

use crate::contexts::{Claim, holds};
use crate::plans::{FORBIDDEN, ITSELF, plan_of};
use mcs_base::{Active, Memory, Vars};
use mcs_import::{Plan, asked, questions};
use mcs_system::System;
use std::alloc::Global;
use std::slice;

/// Whether the sets are those of these numbers.
fn are_sets(found: &[Active], sets: &[u64]) -> bool {
    let mut same = found.len() == sets.len();
    for (set, number) in found.iter().zip(sets) {
        same = same && *set == Active::numbered(*number);
    }
    same
}

/// Whether nothing supplies the only context, and these are the questions to it.
fn are_questions(alloc: Global, plan: &Plan, level: u32, sets: &[u64]) -> Result<bool, Memory> {
    if plan.system().contexts().len() != 1 || !plan.supplied(0).is_empty() {
        return Ok(false);
    }
    let found = questions(alloc, plan, 0, &[], level)?;
    Ok(are_sets(&found, sets))
}

const NO_RULE: &str = "context n0 classical {}";

const TWO_RULES: &str =
    "context n0 classical {} bridge r0: n0:true if n0:x. bridge r1: n0:true if n0:x.";

/// A text, a level, and the questions to its only context, each as bits of a number. Without a
/// rule, with one that reads its own context, and with two of these.
static GUESSES: [(&str, u32, &[u64]); 4] = [
    (NO_RULE, 1, &[0b0]),
    (ITSELF, 0, &[0b0, 0b1]),
    (TWO_RULES, 0, &[0b00, 0b11]),
    (TWO_RULES, 1, &[0b00, 0b01, 0b10, 0b11]),
];

/// Whether these are the questions to the only context of the text.
fn are_guesses(alloc: Global, text: &str, level: u32, sets: &[u64]) -> bool {
    let Some(plan) = plan_of(alloc, text) else {
        return false;
    };
    let told = are_questions(alloc, &plan, level, sets);
    drop(plan);
    told == Ok(true)
}

#[test]
fn asks_by_guesses(rt: HostRuntime) {
    for (text, level, sets) in &GUESSES {
        assert!(rt; are_guesses(rt.alloc(), text, *level, sets));
    }
}

/// Whether these are what the second of two contexts is asked where the first may supply these.
fn are_asked(
    alloc: Global,
    system: &System,
    supply: &[Vars],
    level: u32,
    sets: &[u64],
) -> Result<bool, Memory> {
    if system.contexts().len() != 2 {
        return Ok(false);
    }
    let supply = supply.to_vec(alloc)?;
    let found = asked(
        alloc,
        system,
        1,
        slice::from_ref(&supply),
        Vars::empty(),
        level,
    );
    drop(supply);
    Ok(are_sets(&found?, sets))
}

/// A level, and what the second context is asked at it where the first supplies its first variable
/// alone, so that both rules apply.
static LEVELS: [(u32, &[u64]); 3] = [
    (0, &[0b11]),
    (1, &[0b01, 0b10, 0b11]),
    (2, &[0b00, 0b01, 0b10, 0b11]),
];

/// Whether the second of two contexts is asked by level, and nothing where the first supplies
/// nothing.
pub(crate) fn are_asked_by_level(alloc: Global, system: &System) -> bool {
    let mut are_right = are_asked(alloc, system, &[], 2, &[]) == Ok(true);
    for (level, sets) in &LEVELS {
        are_right &= are_asked(alloc, system, &[Vars::one(0)], *level, sets) == Ok(true);
    }
    are_right
}

#[test]
fn asks_by_level(rt: HostRuntime) {
    assert!(rt; holds(rt.alloc(), FORBIDDEN.as_bytes(), &Claim::AreAsked));
}
