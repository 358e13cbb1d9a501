//! What one context accepts, and its oracle.

ghost use Rattle.std.specs.Prelude.{◌≡◌, []};
ghost use Rattle.mcs_sets.specs.Sets.{Within};
ghost use Rattle.mcs_system.specs.Imports.{rules_into};
ghost use Rattle.mcs_states.specs.Oracles.{with_journal};

use crate::numbered::are_numbered;
use crate::systems::{SELF_ATTACK, system_of};
use mcs_base::{Active, Memory};
use mcs_certificate::accepts;
use mcs_solver::{LocalSolver, accepted_parts};
use mcs_states::{Fork, Oracle};
use mcs_system::System;
use std::alloc::Global;
use std::sync::Arc;
use std::test::Fail;

/// Each of two contexts believes the atom of this name where the other does not.
const TWINS: &str = "context c1 program {} context c2 program {}
bridge r1: c1:a if not c2:a. bridge r2: c2:a if not c1:a.";

/// Two choices, each seen through its first atom; all atoms together are no model.
const TWO_CHOICES: &str = "context c1 program { a | c. b | d. :- a, c. } context c2 classical {}
bridge r1: c2:x if c1:a, c1:b.";

/// A choice of which nothing is read; all atoms together are no model.
const HIDDEN_CHOICE: &str = "context c1 program { a | b. :- a, b. } context c2 classical {}
bridge r1: c2:x if c1:e.";

/// Formulas, of which one follows from what the context is told, and the other does not.
const TOLD_FORMULAS: &str = "context c1 classical { p -> q. } context c2 classical {}
bridge r1: c1:p if not c2:x. bridge r2: c2:y if c1:q, c1:s.";

/// A default that applies as long as the context is not told of an exception.
const TOLD_THEORY: &str = "context c1 default { bird. bird : ~ill / flies. } context c2 classical {}
bridge r1: c1:ill if not c2:x. bridge r2: c2:y if c1:flies.";

/// A choice between two atoms, of which the one rules out what the context is told.
const TOLD_PROGRAM: &str = "context c1 program { a | b. :- a, p. } context c2 classical {}
bridge r1: c1:p if not c2:x. bridge r2: c2:y if c1:a, c1:b.";

/// Texts of systems, a context of each, and the numbers of a set of rules and of the parts that the
/// context accepts with their heads; and whether the context's oracle may be asked with them, which
/// has to be rules into the context.
const ACCEPTED: &[(&str, u32, u64, &[u64], bool)] = &[
    (SELF_ATTACK, 0, 0, &[0], true),
    (SELF_ATTACK, 0, 1, &[1], true),
    (TWINS, 1, 1, &[0], false),
    (TWINS, 1, 2, &[2], true),
    (TWO_CHOICES, 0, 0, &[3, 1, 2, 0], true),
    (HIDDEN_CHOICE, 0, 0, &[0], true),
];

/// Whether these are what the context accepts with the heads of the rules.
fn are_accepted(
    alloc: Global,
    system: &System,
    context: u32,
    rules: Active,
    parts: &[u64],
) -> Result<bool, Memory> {
    if context as usize >= system.contexts().len() {
        return Ok(false);
    }
    Ok(are_numbered(&accepted_parts(alloc, system, context, rules)?, parts))
}

/// Whether these are the answers of the context's oracle to the question, which it notes.
fn are_answers(
    alloc: Global,
    system: &Arc<System>,
    context: u32,
    rules: Active,
    parts: &[u64],
) -> Result<bool, Memory> {
    if context as usize >= system.contexts().len() || !rules.within(system.rules_of(context)) {
        return Ok(false);
    }
    let mut solver = LocalSolver::new(alloc, system.clone()?, context, false);
    let is_right = match solver.ask(alloc, rules) {
        Ok(found) => are_numbered(&found, parts),
        Err(_) => false,
    };
    let is_noted = solver.journal() == [rules].as_slice();
    drop(solver);
    Ok(is_right && is_noted)
}

#[test]
fn a_context_accepts_what_it_is_told(rt: HostRuntime) -> Result<(), Fail> {
    let alloc = rt.alloc();
    let mut are_right = true;
    for (text, context, rules, parts, may_ask) in ACCEPTED {
        let rules = Active::numbered(*rules);
        let system = system_of(alloc, text)?;
        let accepted = are_accepted(alloc, &system, *context, rules, parts);
        let answered = are_answers(alloc, &system, *context, rules, parts);
        drop(system);
        are_right &= accepted == Ok(true) && answered == Ok(*may_ask);
    }
    assert!(rt; are_right);
    Ok(())
}

/// Whether the first context's oracle, after it was asked with the first rule alone, has a
/// certificate of this question that is accepted with what was answered; nothing where it has none.
fn is_shown(
    alloc: Global,
    system: &Arc<System>,
    keep: bool,
    question: Active,
) -> Result<Option<bool>, Memory> {
    let rule = Active::one(0);
    if system.contexts().is_empty()
        || !rule.within(system.rules_of(0))
        || !question.within(system.rules_of(0))
    {
        return Ok(Some(false));
    }
    let mut solver = LocalSolver::new(alloc, system.clone()?, 0, keep);
    let is_answered = solver.ask(alloc, rule).is_ok();
    let shown = match solver.certificate(question) {
        Some((outputs, cert)) => Some(accepts(alloc, system, 0, question, outputs, cert)),
        None => None,
    };
    drop(solver);
    if !is_answered {
        return Ok(Some(false));
    }
    shown.transpose()
}

/// Whether a certificate of the question that was asked is shown where certificates are kept, and
/// none of another one, nor where they are not kept.
fn are_shown(alloc: Global, system: &Arc<System>) -> bool {
    is_shown(alloc, system, true, Active::one(0)) == Ok(Some(true))
        && is_shown(alloc, system, true, Active::empty()) == Ok(None)
        && is_shown(alloc, system, false, Active::one(0)) == Ok(None)
}

#[test]
fn an_oracle_keeps_certificates_where_it_is_told_to(rt: HostRuntime) -> Result<(), Fail> {
    let mut are_right = true;
    for text in &[TOLD_FORMULAS, TOLD_THEORY, TOLD_PROGRAM] {
        let system = system_of(rt.alloc(), text)?;
        are_right &= are_shown(rt.alloc(), &system);
        drop(system);
    }
    assert!(rt; are_right);
    Ok(())
}

/// Whether another oracle of the same context answers the question, and this one takes that over.
fn is_asked_beside(alloc: Global, solver: &mut LocalSolver, question: Active) -> bool
    requires { Within question (rules_into solver.old.system solver.old.context) }
    ensures { with_journal [] solver.new ≡ with_journal [] solver.old }
{
    let Ok(mut other) = solver.fork(alloc) else {
        return false;
    };
    match other.ask(alloc, question) {
        Ok(found) => {
            drop(found);
            solver.absorb(alloc, other).is_ok()
        }
        Err(_) => false,
    }
}

/// Whether the first context's oracle has an accepted certificate of its answer with the first rule
/// alone, after it took over another one that was asked this; nothing where it has none, or did not
/// note the question.
fn is_taken_over(alloc: Global, system: &Arc<System>) -> Result<Option<bool>, Memory> {
    let rule = Active::one(0);
    if system.contexts().is_empty() || !rule.within(system.rules_of(0)) {
        return Ok(None);
    }
    let mut solver = LocalSolver::new(alloc, system.clone()?, 0, true);
    let is_asked = is_asked_beside(alloc, &mut solver, rule);
    let is_noted = solver.journal() == [rule].as_slice();
    let shown = match solver.certificate(rule) {
        Some((outputs, cert)) => Some(accepts(alloc, system, 0, rule, outputs, cert)),
        None => None,
    };
    drop(solver);
    if !is_asked || !is_noted {
        return Ok(None);
    }
    shown.transpose()
}

#[test]
fn an_oracle_takes_over_what_another_was_asked(rt: HostRuntime) -> Result<(), Fail> {
    let mut are_right = true;
    for text in &[TOLD_FORMULAS, TOLD_THEORY, TOLD_PROGRAM] {
        let system = system_of(rt.alloc(), text)?;
        are_right &= is_taken_over(rt.alloc(), &system) == Ok(Some(true));
        drop(system);
    }
    assert!(rt; are_right);
    Ok(())
}

/// Formulas from which something follows by themselves, with one head, with two together, and with
/// a head that contradicts them.
const FOLLOWED: &str = "context c1 classical { p -> q. r & s -> t. u. } context c2 classical {}
bridge r1: c1:p if not c2:x. bridge r2: c1:r if not c2:x. bridge r3: c1:s if not c2:x. bridge r4: c1:~u if not c2:x.
bridge r5: c2:y if c1:q, c1:t, c1:u.";

/// Questions to the oracle of the first context, in turn: the numbers of a set of rules, and of the
/// one part that the context accepts. They ascend; then come some that were asked before, one above
/// all, and others that stand below it.
const IN_TURN: &[(u64, u64)] = &[
    (0, 4),
    (1, 5),
    (3, 5),
    (7, 7),
    (3, 5),
    (8, 7),
    (15, 7),
    (14, 7),
    (6, 6),
    (4, 4),
    (2, 4),
    (0, 4),
];

/// Whether this is the one answer of the oracle, which is of the first context of the system.
fn is_only_answer(
    alloc: Global,
    system: &System,
    solver: &mut LocalSolver,
    rules: u64,
    part: u64,
) -> bool
    requires system { solver.old.system ≡ system.now }
    requires context { solver.old.context ≡ 0 }
    ensures system { solver.new.system ≡ system.now }
    ensures context { solver.new.context ≡ 0 }
{
    let rules = Active::numbered(rules);
    if system.contexts().is_empty() || !rules.within(system.rules_of(0)) {
        return false;
    }
    match solver.ask(alloc, rules) {
        Ok(found) => are_numbered(&found, &[part]),
        Err(_) => false,
    }
}

/// Whether the oracle of the first context gives these answers in turn.
fn are_in_turn(
    alloc: Global,
    system: &Arc<System>,
    keep: bool,
    questions: &[(u64, u64)],
) -> Result<bool, Memory> {
    if system.contexts().is_empty() {
        return Ok(false);
    }
    let mut solver = LocalSolver::new(alloc, system.clone()?, 0, keep);
    let mut are_right = true;
    for (rules, part) in questions {
        are_right = is_only_answer(alloc, system, &mut solver, *rules, *part) && are_right;
    }
    drop(solver);
    Ok(are_right)
}

#[test]
fn a_classical_context_is_told_by_what_was_found(rt: HostRuntime) -> Result<(), Fail> {
    let system = system_of(rt.alloc(), FOLLOWED)?;
    let found = are_in_turn(rt.alloc(), &system, false, IN_TURN);
    let shown = are_in_turn(rt.alloc(), &system, true, IN_TURN);
    drop(system);
    assert!(rt; found == Ok(true) && shown == Ok(true));
    Ok(())
}
