//! Grounded equilibria by an evaluation, and systems that are not plain.

use crate::evaluators::evaluator_of;
use crate::numbered::are_numbered;
use crate::systems::{CHOICE, SELF_ATTACK, system_of};
use mcs_base::Memory;
use mcs_grounded::list_grounded;
use mcs_ports::IdleGate;
use mcs_reduct::{
    blocked_rules_are_dropped, grounded_are_equilibria, grounded_equilibria_have_a_listing,
    not_plain, plain_contexts, worked_systems,
};
use mcs_system::System;
use std::alloc::Global;
use std::sync::Arc;
use std::test::Fail;

/// Two contexts that believe what the other one tells them, and one that reads neither.
const CIRCLE: &str = "context c1 classical {} context c2 program {} context c3 program { a. }
bridge r1: c1:a if c2:a. bridge r2: c2:a if c1:a. bridge r3: c3:b if c3:a.";

/// Texts of plain systems, and the numbers of their grounded equilibria.
const GROUNDED: &[(&str, &[u64])] = &[(CHOICE, &[1, 2]), (SELF_ATTACK, &[]), (CIRCLE, &[4])];

/// Texts of systems, and the lowest context that is not plain.
const LOWEST: &[(&str, Option<u32>)] = &[
    (CIRCLE, None),
    (
        "context c1 classical { a | b. } context c2 program { a :- not b. }",
        None,
    ),
    (
        "context c1 classical {} context c2 program { a | a. } context c3 default {}",
        Some(1),
    ),
    (
        "context c1 default {} context c2 program { :- a. }",
        Some(0),
    ),
];

/// Whether the system is plain, and these are its grounded equilibria.
fn has_grounded(alloc: Global, system: &Arc<System>, wanted: &[u64]) -> Result<bool, Memory> {
    if not_plain(system).is_some() {
        return Ok(false);
    }
    let mut evaluator = evaluator_of(alloc, system, 100, &IdleGate)?;
    let is_right = match list_grounded(alloc, &mut evaluator, system) {
        Ok(found) => are_numbered(&found, wanted),
        Err(_) => false,
    };
    drop(evaluator);
    Ok(is_right)
}

#[test]
fn grounded_equilibria_are_told_by_an_evaluator(rt: HostRuntime) -> Result<(), Fail> {
    let mut are_right = true;
    for (text, wanted) in GROUNDED {
        let system = system_of(rt.alloc(), text)?;
        are_right &= has_grounded(rt.alloc(), &system, wanted) == Ok(true);
        drop(system);
    }
    assert!(rt; are_right);
    Ok(())
}

#[test]
fn the_lowest_context_that_is_not_plain_is_told(rt: HostRuntime) -> Result<(), Fail> {
    let mut are_right = true;
    for (text, wanted) in LOWEST {
        let system = system_of(rt.alloc(), text)?;
        are_right &= not_plain(&system) == *wanted;
        drop(system);
    }
    assert!(rt; are_right);
    Ok(())
}

#[test]
fn laws_of_reducts_are_called(_rt: HostRuntime) {
    grounded_are_equilibria();
    grounded_equilibria_have_a_listing();
    blocked_rules_are_dropped();
    plain_contexts();
    worked_systems();
}
