//! What a system tells of its contexts and rules.

use crate::copies::{bridges_of, contexts_of};
use crate::systems::{Claim, holds};
use mcs_base::{Active, Marks, Memory, Vars};
use mcs_system::{Bridge, Formula, Name, Read, System};
use std::alloc::Global;

/// A classical context, a default theory and a program, and rules by which they read each other.
pub(crate) const THREE: &[u8] =
    b"context facts classical { a & b. } context theory default { p. q : r / s. } context rules program { x :- y, not z. }
bridge r0: theory:q if rules:x, facts:a, not rules:w. bridge r1: facts:e if theory:s, not facts:a.
bridge r2: rules:y if facts:b, not rules:x. bridge r3: theory:t.";

/// Whether these are the names.
fn are_named(names: &[Name], texts: &[&str]) -> bool {
    let mut are_same = names.len() == texts.len();
    for (name, text) in names.iter().zip(texts) {
        are_same &= name.bytes() == text.as_bytes();
    }
    are_same
}

/// Whether the read is of this atom.
fn reads(read: &Read, context: u32, text: &[u8]) -> bool {
    match &read.belief {
        Formula::Atom(name) => read.context == context && name.bytes() == text,
        _ => false,
    }
}

/// Whether these are the variables of the three contexts.
fn are_five(variables: &[Read]) -> bool {
    match variables {
        [a, b, s, x, w] => reads(a, 0, b"a")
            && reads(b, 0, b"b")
            && reads(s, 1, b"s")
            && reads(x, 2, b"x")
            && reads(w, 2, b"w"),
        _ => false,
    }
}

/// Whether the context has these atoms, variables, inputs and rules.
fn is_told(
    system: &System,
    i: u32,
    atoms: &[&str],
    vars: Vars,
    inputs: Vars,
    rules: Active,
) -> bool {
    if (i as usize) >= system.contexts().len() {
        return false;
    }
    let told = (system.vars_of(i), system.inputs_of(i), system.rules_of(i));
    told == (vars, inputs, rules) && are_named(system.atoms_of(i), atoms)
}

/// Whether these rules into the context apply.
fn apply(system: &System, i: u32, state: Vars, rules: Active) -> bool {
    (i as usize) < system.contexts().len() && system.applicable(i, state) == rules
}

/// A context, its atoms, and its variables, its inputs and the rules into it, as bits of numbers.
static CONTEXTS: [(u32, &[&str], u64, u64, u64); 3] = [
    (0, &["a", "b", "e"], 0b00011, 0b00101, 0b0010),
    (1, &["p", "q", "r", "s", "t"], 0b00100, 0b11001, 0b1001),
    (2, &["x", "y", "z", "w"], 0b11000, 0b01010, 0b0100),
];

/// Whether the three contexts have what the text says.
fn are_told(system: &System) -> bool {
    let mut are_told = true;
    for (i, atoms, vars, inputs, rules) in &CONTEXTS {
        let (vars, inputs) = (Vars::numbered(*vars), Vars::numbered(*inputs));
        are_told &= is_told(system, *i, atoms, vars, inputs, Active::numbered(*rules));
    }
    are_told
}

/// A context, a state, and the rules into the context that apply in it, the sets as bits of
/// numbers.
static APPLICABLE: [(u32, u64, u64); 5] = [
    (1, 0b01001, 0b1001),
    (1, 0b11001, 0b1000),
    (0, 0b00100, 0b0010),
    (0, 0b01101, 0b0000),
    (2, 0b00010, 0b0100),
];

/// Whether the right rules into each of the three contexts apply, and of all rules.
fn are_applicable(system: &System) -> bool {
    let mut are_right = system.applicable_rules(Vars::numbered(0b01011))
        == Active::numbered(0b1001);
    for (i, state, rules) in &APPLICABLE {
        are_right &= apply(system, *i, Vars::numbered(*state), Active::numbered(*rules));
    }
    are_right
}

/// Whether the system has three contexts, four rules and five variables, and tells what the text
/// says.
pub(crate) fn is_three(system: &System) -> bool {
    system.contexts().len() == 3
        && system.bridges().len() == 4
        && are_five(system.variables())
        && are_told(system)
        && are_applicable(system)
}

#[test]
fn tells_of_contexts_and_rules(rt: HostRuntime) {
    assert!(rt; holds(rt.alloc(), THREE, &Claim::IsThree));
}

/// Copies of the rules of the system, of which the second is kept and the third is closed.
fn marked_rules(alloc: Global, system: &System) -> Result<Vec<Bridge>, Memory> {
    let mut rules = bridges_of(alloc, &[system.bridges()])?;
    if let Some(rule) = rules.get_mut(1) {
        rule.keep = true;
    }
    if let Some(rule) = rules.get_mut(2) {
        rule.closed = true;
    }
    Ok(rules)
}

/// Whether repairs may change each rule of the system both ways, and with these copies each but as
/// it is marked.
pub(crate) fn are_repairs_told(alloc: Global, system: &System) -> Result<bool, Memory> {
    let contexts = contexts_of(alloc, &[system.contexts()])?;
    let rules = marked_rules(alloc, system)?;
    let others = Marks::one(0).with(1).with(3).with(4).with(6).with(7);
    let is_told = match System::build(alloc, contexts, rules) {
        Ok(marked) => marked.allowed() == others,
        Err(_) => false,
    };
    Ok(is_told && system.allowed() == others.with(2).with(5))
}

#[test]
fn tells_what_repairs_may_change(rt: HostRuntime) {
    assert!(rt; holds(rt.alloc(), THREE, &Claim::RepairsAreTold));
}
