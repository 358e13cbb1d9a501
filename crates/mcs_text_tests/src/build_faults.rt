//! Contexts and bridge rules that make no system.

use crate::contents::THREE;
use crate::copies::built;
use crate::limits::{FULL_OF_ATOMS, FULL_OF_SIGNS, Parts};
use crate::systems::{Claim, holds, system_of};
use mcs_base::Memory;
use mcs_system::{Bridge, BuildFault, Context, Formula, Kb, Limit, System};
use std::alloc::Global;
use std::slice;
use std::sync::Arc;

const TWIN: Option<BuildFault> = Some(BuildFault::Fault {
    number: 3,
    limit: None,
});

/// Whether all these contexts and bridge rules have just this fault.
fn have_fault(
    alloc: Global,
    contexts: &[&[Context]],
    rules: &[&[Bridge]],
    fault: Option<BuildFault>,
) -> bool {
    built(alloc, contexts, rules).err() == fault
}

/// Whether twins are found where the second context stands behind all once more, and among more
/// contexts than there may be.
pub(crate) fn are_twins_found(alloc: Global, contexts: &[Context]) -> bool {
    let second = contexts.get(1..2).unwrap_or(&[]);
    have_fault(alloc, &[contexts], &[], None)
        && have_fault(alloc, &[contexts, second], &[], TWIN)
        && have_fault(alloc, &[], &[], None)
        && have_fault(alloc, &[second; 65], &[], TWIN)
}

/// Contexts with three names.
const NAMED: &[u8] = b"context b classical {} context a classical {} context ab classical {}";

#[test]
fn finds_twins(rt: HostRuntime) {
    assert!(rt; holds(rt.alloc(), NAMED, &Claim::TwinsAreFound));
}

/// Whether the contexts with the rules exceed the limit.
fn exceed(alloc: Global, contexts: &[Context], rules: &[Bridge], limit: Limit) -> bool {
    let exceeded = BuildFault::Fault {
        number: 5,
        limit: Some(limit),
    };
    have_fault(alloc, &[contexts], &[rules], Some(exceeded))
}

/// A rule with another atom than the texts that are full.
const OTHER_HEAD: &[u8] = b"context c classical {} bridge r: c:b.";

/// The system of the text that is full.
fn full_system(alloc: Global, parts: &Parts) -> Option<Arc<System>> {
    let Ok(text) = parts.full_text(alloc) else {
        return None;
    };
    let system = system_of(alloc, text.bytes());
    drop(text);
    system
}

/// The denial of the formula.
fn denial(alloc: Global, formula: &Formula) -> Result<Formula, Memory> {
    let copy = formula.copy(alloc)?;
    Ok(Formula::Not(Box::new(alloc, copy)?))
}

/// A rule with the name of the other one, which puts the denial of the formula into the first
/// context.
fn denying(alloc: Global, other: &Bridge, formula: &Formula) -> Result<Bridge, Memory> {
    let name = other.name.copy(alloc)?;
    let head = denial(alloc, formula)?;
    Ok(Bridge {
        name,
        target: 0,
        head,
        pos: Vec::new(alloc),
        neg: Vec::new(alloc),
        keep: false,
        closed: false,
        weight: 1,
    })
}

/// The last formula of the only context.
fn last_formula(system: &System) -> Option<&Formula> {
    match system.contexts() {
        [
            Context {
                kb: Kb::Classical(formulas),
                ..
            },
        ] => formulas.last(),
        _ => None,
    }
}

/// Whether the denial of the last formula in the head of a rule exceeds the limit of its signs and
/// atoms. The rule has the name of the first of the rules.
fn is_denial_longer(alloc: Global, system: &System, rules: &[Bridge]) -> Result<bool, Memory> {
    let Some(rule) = rules.first() else {
        return Ok(false);
    };
    let Some(formula) = last_formula(system) else {
        return Ok(false);
    };
    let rule = denying(alloc, rule, formula)?;
    let rules = slice::from_ref(&rule);
    let is_longer = exceed(alloc, system.contexts(), rules, Limit::FormulaSize);
    drop(rule);
    Ok(is_longer)
}

/// Whether the limit of the text that is full is exceeded in its system: that of a formula's signs
/// and atoms by the head of a rule with one negation more, and another one by the rules.
fn is_exceeded(alloc: Global, system: &System, rules: &[Bridge], limit: Limit) -> bool {
    match limit {
        Limit::FormulaSize => is_denial_longer(alloc, system, rules) == Ok(true),
        _ => exceed(alloc, system.contexts(), rules, limit),
    }
}

/// The same of the text.
fn exceed_full(alloc: Global, rules: &[Bridge], parts: &Parts) -> bool {
    let Some(system) = full_system(alloc, parts) else {
        return false;
    };
    let is_exceeded = is_exceeded(alloc, &system, rules, parts.limit);
    drop(system);
    is_exceeded
}

/// Whether 64 atoms are exceeded by the heads of rules with another one, and 512 signs and atoms by
/// one negation more.
pub(crate) fn keep_limits(alloc: Global, rules: &[Bridge]) -> bool {
    exceed_full(alloc, rules, &FULL_OF_ATOMS) && exceed_full(alloc, rules, &FULL_OF_SIGNS)
}

#[test]
fn keeps_limits_of_heads(rt: HostRuntime) {
    assert!(rt; holds(rt.alloc(), OTHER_HEAD, &Claim::LimitsAreKept));
}

/// Rules that have the faults 4, 4, 3, 2 and 2 in the contexts of `THREE`: what is no atom for a
/// program as a head and as a read, a name that is there, and a context that is not there, told and
/// read.
const FAULTY: &[u8] =
    b"context a classical {} context b classical {} context c classical {} context d classical {}
bridge r: c:true. bridge s: a:true if not c:true. bridge r0: b:true. bridge t: d:true. bridge u: a:true if not d:true.";

/// From and up to which of these rules are added to those of `THREE`, and the number of the fault
/// that is told.
static ADDED: [(usize, usize, u8); 5] = [(0, 1, 4), (1, 2, 4), (0, 3, 3), (0, 4, 2), (4, 5, 2)];

/// Whether the lowest fault is told of the contexts and rules of the one system with rules of the
/// other.
fn is_lowest_told<'s>(alloc: Global, three: &'s System, faulty: &'s System) -> bool {
    let contexts = [three.contexts()];
    let mut is_told = have_fault(alloc, &contexts, &[three.bridges()], None);
    for (from, to, number) in &ADDED {
        let rules = faulty.bridges().get(*from..*to).unwrap_or(&[]);
        let fault = BuildFault::Fault {
            number: *number,
            limit: None,
        };
        is_told &= have_fault(alloc, &contexts, &[three.bridges(), rules], Some(fault));
    }
    is_told
}

/// The same with the rules that have faults.
pub(crate) fn is_lowest_of_faulty_told(alloc: Global, three: &System) -> bool {
    let Some(faulty) = system_of(alloc, FAULTY) else {
        return false;
    };
    let is_told = is_lowest_told(alloc, three, &faulty);
    drop(faulty);
    is_told
}

#[test]
fn tells_lowest_number(rt: HostRuntime) {
    assert!(rt; holds(rt.alloc(), THREE, &Claim::LowestIsTold));
}

/// A context and a rule into it.
const WEIGHED: &[u8] = b"context c classical {} bridge r: c:p.";

/// Weights of a rule, and the fault of a system that has it.
static WEIGHTS: [(u32, Option<BuildFault>); 4] = [
    (
        0,
        Some(BuildFault::Fault {
            number: 4,
            limit: None,
        }),
    ),
    (1, None),
    (1_000_000, None),
    (
        1_000_001,
        Some(BuildFault::Fault {
            number: 5,
            limit: Some(Limit::Weight),
        }),
    ),
];

/// Whether the system of the contexts and a copy of the rule with another weight has just this
/// fault.
fn is_judged(
    alloc: Global,
    contexts: &[Context],
    rule: &Bridge,
    weight: u32,
    fault: Option<BuildFault>,
) -> Result<bool, Memory> {
    let mut rule = rule.copy(alloc)?;
    rule.weight = weight;
    let is_judged = have_fault(alloc, &[contexts], &[slice::from_ref(&rule)], fault);
    drop(rule);
    Ok(is_judged)
}

/// Whether each weight of the first rule of the system has its fault.
pub(crate) fn are_weights_judged(alloc: Global, system: &System) -> bool {
    let Some(rule) = system.bridges().first() else {
        return false;
    };
    let mut are_judged = true;
    for (weight, fault) in &WEIGHTS {
        are_judged &= is_judged(alloc, system.contexts(), rule, *weight, *fault) == Ok(true);
    }
    are_judged
}

#[test]
fn keeps_limits_of_weights(rt: HostRuntime) {
    assert!(rt; holds(rt.alloc(), WEIGHED, &Claim::WeightsAreJudged));
}
