//! Evaluations on one thread: equilibria of changed systems, and the first of them.

use crate::evaluators::{Solving, evaluator_of};
use crate::numbered::are_numbered;
use crate::systems::{CHOICE, FORBIDDEN, SELF_ATTACK, are_allowed, system_of};
use mcs_base::{Marks, Memory, Pair};
use mcs_equilibria::{least_state, list_states};
use mcs_ports::IdleGate;
use mcs_states::Evaluator;
use mcs_system::System;
use std::alloc::Global;
use std::sync::Arc;
use std::test::Fail;

/// More questions than any of these systems has.
const ENOUGH: u64 = 100;

/// What one context is told is forbidden. Thirteen others choose whether to hold what they tell
/// themselves; the sixth may only where the fifth does not.
const FREE: &str =
    "context fact program { a. } context bad program { :- told. } context k0 program { y :- x. }
context k1 program { y :- x. } context k2 program { y :- x. } context k3 program { y :- x. }
context k4 program { y :- x. } context k5 program { y :- x. } context k6 program { y :- x. }
context k7 program { y :- x. } context k8 program { y :- x. } context k9 program { y :- x. }
context k10 program { y :- x. } context k11 program { y :- x. } context k12 program { y :- x. }
bridge tell: bad:told if fact:a, not fact:b. bridge r0: k0:x if k0:y. bridge r1: k1:x if k1:y. bridge r2: k2:x if k2:y.
bridge r3: k3:x if k3:y. bridge r4: k4:x if k4:y. bridge r5: k5:x if k5:y, not k4:y. bridge r6: k6:x if k6:y.
bridge r7: k7:x if k7:y. bridge r8: k8:x if k8:y. bridge r9: k9:x if k9:y. bridge r10: k10:x if k10:y.
bridge r11: k11:x if k11:y. bridge r12: k12:x if k12:y.";

/// What a changed system has.
enum Wanted {
    /// The states of these numbers.
    States(&'static [u64]),
    /// The first state of all, of this number; none where it has no state.
    First(Option<u64>),
}

/// Texts of systems, the marks of a pair, and what the system has where the pair changes it.
const CHANGES: &[(&str, &[u32], Wanted)] = &[
    (FORBIDDEN, &[], Wanted::States(&[])),
    (FORBIDDEN, &[0], Wanted::States(&[])),
    (FORBIDDEN, &[0, 2], Wanted::States(&[1])),
    (SELF_ATTACK, &[0], Wanted::States(&[0])),
    (SELF_ATTACK, &[1], Wanted::States(&[1])),
    (CHOICE, &[], Wanted::States(&[1, 2])),
    (CHOICE, &[0], Wanted::States(&[2])),
    (FORBIDDEN, &[], Wanted::First(None)),
    (FORBIDDEN, &[0, 2], Wanted::First(Some(1))),
    (CHOICE, &[], Wanted::First(Some(1))),
    (CHOICE, &[0], Wanted::First(Some(2))),
    (FREE, &[], Wanted::First(None)),
    (FREE, &[0], Wanted::First(Some(32637))),
];

/// The last context is told three things that it forbids together: by three contexts, which are
/// told of them by one rule, by two and by three.
const TOGETHER: &str = "context fact program { a. } context one program {} context two program {}
context three program {} context bad program { :- p, q, s. }
bridge r1: one:p if fact:a. bridge r2: two:q if fact:a. bridge r3: two:q if fact:a.
bridge r4: three:s if fact:a. bridge r5: three:s if fact:a. bridge r6: three:s if fact:a.
bridge t1: bad:p if one:p. bridge t2: bad:q if two:q. bridge t3: bad:s if three:s.";

/// The marks of the minimal diagnoses of that system, in order.
const DIAGNOSES: &[&[u32]] = &[&[0], &[12], &[14], &[16], &[2, 4], &[6, 8, 10]];

/// Levels, and how many of the diagnoses have no more marks.
const LEVELS: &[(u32, usize)] = &[(0, 0), (1, 4), (2, 5), (3, 6)];

/// The set of these marks.
pub(crate) fn marks_of(members: &[u32]) -> Marks {
    let mut marks = Marks::empty();
    for mark in members {
        if *mark < 128 {
            marks = marks.with(*mark);
        }
    }
    marks
}

/// Whether the system has this where a pair of these marks changes it.
fn has(alloc: Global, system: &Arc<System>, marks: Marks, wanted: &Wanted) -> Result<bool, Memory> {
    if !are_allowed(system, marks) {
        return Ok(false);
    }
    let mut evaluator = evaluator_of(alloc, system, ENOUGH, &IdleGate)?;
    let is_right = match wanted {
        Wanted::States(numbers) => match list_states(alloc, &mut evaluator, Pair::new(marks)) {
            Ok(found) => are_numbered(&found, numbers),
            Err(_) => false,
        },
        Wanted::First(number) => match least_state(alloc, &mut evaluator, Pair::new(marks)) {
            Ok(found) => found.map(|state| state.number()) == *number,
            Err(_) => false,
        },
    };
    drop(evaluator);
    Ok(is_right)
}

#[test]
fn changed_systems_have_their_states(rt: HostRuntime) -> Result<(), Fail> {
    let mut are_right = true;
    for (text, marks, wanted) in CHANGES {
        let system = system_of(rt.alloc(), text)?;
        are_right &= has(rt.alloc(), &system, marks_of(marks), wanted) == Ok(true);
        drop(system);
    }
    assert!(rt; are_right);
    Ok(())
}

/// Whether these are the first so many of the minimal diagnoses.
fn are_first(pairs: &[Marks], count: usize) -> bool {
    if pairs.len() != count {
        return false;
    }
    for (pair, marks) in pairs.iter().zip(DIAGNOSES) {
        if *pair != marks_of(marks) {
            return false;
        }
    }
    true
}

/// Whether the evaluator tells the first so many of the minimal diagnoses at this level.
fn tells_first(alloc: Global, evaluator: &mut Solving<'_>, level: u32, count: usize) -> bool {
    if evaluator.halted() {
        return false;
    }
    match evaluator.repairs(alloc, level) {
        Ok(pairs) => are_first(&pairs, count),
        Err(_) => false,
    }
}

/// Whether an evaluator of the system tells so many of the minimal diagnoses at these levels, one
/// after the other.
fn tells(alloc: Global, system: &Arc<System>, levels: &[(u32, usize)]) -> Result<bool, Memory> {
    let mut evaluator = evaluator_of(alloc, system, ENOUGH, &IdleGate)?;
    let mut are_right = true;
    for (level, count) in levels {
        are_right &= tells_first(alloc, &mut evaluator, *level, *count);
    }
    drop(evaluator);
    Ok(are_right)
}

#[test]
fn diagnoses_come_level_after_level_and_at_once(rt: HostRuntime) -> Result<(), Fail> {
    let system = system_of(rt.alloc(), TOGETHER)?;
    let after_level = tells(rt.alloc(), &system, LEVELS);
    let at_once = tells(rt.alloc(), &system, &[(3, DIAGNOSES.len())]);
    drop(system);
    assert!(rt; after_level == Ok(true) && at_once == Ok(true));
    Ok(())
}
