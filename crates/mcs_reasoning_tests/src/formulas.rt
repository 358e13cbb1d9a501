//! The clauses of formulas.

use crate::contexts::{Claim, holds};
use crate::traces::is_told;
use mcs_base::Memory;
use mcs_cnf::{
    are_different, are_over, classical_certificates_are_sound, clauses, clauses_are_sets,
    clauses_mean_the_formulas, contexts_are_over_their_atoms, entailment_is_refutation,
    entailments_are_sound, formulas_are_over_their_atoms, is_over, push_formula, push_negation,
};
use mcs_system::{Formula, Name};
use mcs_trace::{Clause, Cnf};
use std::alloc::Global;

/// Whether the clauses have these literals.
pub(crate) fn are_those(clauses: &[Clause], expected: &[&[i64]]) -> bool {
    let mut same = clauses.len() == expected.len();
    for (clause, literals) in clauses.iter().zip(expected) {
        same = same && clause.literals() == *literals;
    }
    same
}

/// Whether the formulas are over the atoms, and have so many variables and these clauses.
fn have_clauses(
    alloc: Global,
    formulas: &[Formula],
    atoms: &[Name],
    vars: u64,
    expected: &[&[i64]],
) -> Result<bool, Memory> {
    if !are_different(atoms) || !are_over(atoms, formulas) {
        return Ok(false);
    }
    let cnf = clauses(alloc, formulas, atoms)?;
    Ok(cnf.vars() == vars && are_those(cnf.clauses(), expected))
}

/// A formula of each kind over the atoms, and one whose parts are the same.
const EACH: &[u8] =
    b"context c classical { true. false. ~x. x & y. x | y. x -> y. x <-> y. x & x. }";

static CLAUSES_OF_EACH: [&[i64]; 28] = [
    &[3],
    &[3],
    &[-4],
    &[4],
    &[-1, -5],
    &[1, 5],
    &[5],
    &[1, -6],
    &[2, -6],
    &[-1, -2, 6],
    &[6],
    &[-1, 7],
    &[-2, 7],
    &[1, 2, -7],
    &[7],
    &[1, 8],
    &[-2, 8],
    &[-1, 2, -8],
    &[8],
    &[-1, 2, -9],
    &[1, -2, -9],
    &[1, 2, 9],
    &[-1, -2, 9],
    &[9],
    &[1, -10],
    &[1, -10],
    &[-1, 10],
    &[10],
];

/// Whether each of the formulas is over two atoms, and not all are over the second alone, and they
/// have those clauses.
pub(crate) fn are_all_stated(
    alloc: Global,
    formulas: &[Formula],
    atoms: &[Name],
) -> Result<bool, Memory> {
    if atoms.len() != 2 || are_over(&atoms[1..], formulas) {
        return Ok(false);
    }
    have_clauses(alloc, formulas, atoms, 10, &CLAUSES_OF_EACH)
}

#[test]
fn each_connective_has_its_clauses(rt: HostRuntime) {
    assert!(rt; holds(rt.alloc(), EACH, &Claim::AreStated));
}

/// Adds the clauses of the formula, or of its negation, where they can be added.
fn push(
    alloc: Global,
    cnf: &mut Cnf,
    atoms: &[Name],
    formula: &Formula,
    is_denied: bool,
) -> Result<(), Memory> {
    if !is_over(atoms, formula) || cnf.vars() < atoms.len() as u64 {
        return Ok(());
    }
    if is_denied {
        push_negation(alloc, cnf, atoms, formula)
    } else {
        push_formula(alloc, cnf, atoms, formula)
    }
}

/// The clauses of no formulas, to which those of each of these are added, or of its negation where
/// it is denied.
fn pushed(alloc: Global, atoms: &[Name], formulas: &[(&Formula, bool)]) -> Result<Cnf, Memory> {
    let mut cnf = clauses(alloc, &[], atoms)?;
    for (formula, is_denied) in formulas {
        push(alloc, &mut cnf, atoms, formula, *is_denied)?;
    }
    Ok(cnf)
}

static CONTRADICTION: [&[i64]; 7] = [&[1], &[-1, -3], &[1, 3], &[3], &[-2, -4], &[2, 4], &[4]];

/// Whether a fact, which is not over the second of two atoms, its denial and that of a goal have
/// the clauses of the contradiction, and are refuted by the clauses of the fact and of its denial.
pub(crate) fn are_refuted(
    alloc: Global,
    formulas: &[Formula],
    atoms: &[Name],
) -> Result<bool, Memory> {
    let [fact, goal] = formulas else {
        return Ok(false);
    };
    if atoms.len() != 2 || is_over(&atoms[1..], fact) {
        return Ok(false);
    }
    let cnf = pushed(alloc, atoms, &[(fact, false), (fact, true), (goal, true)])?;
    let is_stated = cnf.vars() == 4 && are_those(cnf.clauses(), &CONTRADICTION);
    let is_refuted = is_told(alloc, &cnf, &[&[4, 2, 1]], true);
    drop(cnf);
    Ok(is_refuted? && is_stated)
}

#[test]
fn what_contradicts_itself_entails_everything(rt: HostRuntime) {
    assert!(rt;
        holds(
            rt.alloc(),
            b"context c classical { p. q. }",
            &Claim::AreRefuted
        )
    );
}

/// The text of a context with one formula, that has so many negations.
pub(crate) fn nested(alloc: Global, count: u32) -> Result<Vec<u8>, Memory> {
    let mut text = Vec::from_slice(alloc, b"context c classical { ")?;
    for _ in 0..count {
        text.push(b'~')?;
    }
    text.extend_from_slice(b"x. }")?;
    Ok(text)
}

/// Whether the only formula's negation has so many variables and clauses.
pub(crate) fn has_size(
    alloc: Global,
    formulas: &[Formula],
    atoms: &[Name],
    vars: u64,
    count: usize,
) -> Result<bool, Memory> {
    let [formula] = formulas else {
        return Ok(false);
    };
    let cnf = pushed(alloc, atoms, &[(formula, true)])?;
    Ok(cnf.vars() == vars && cnf.clauses().len() == count)
}

/// Whether a formula of 513 occurrences, one more than a text may have, has its clauses.
fn has_deep_size(alloc: Global) -> Result<bool, Memory> {
    let text = nested(alloc, 511)?;
    let has_size = holds(alloc, &text, &Claim::HasSize(513, 1025));
    drop(text);
    Ok(has_size)
}

#[test]
fn deep_formulas_have_clauses(rt: HostRuntime) {
    assert!(rt; has_deep_size(rt.alloc()) == Ok(true));
}

#[test]
fn laws_are_called() {
    clauses_are_sets();
    clauses_mean_the_formulas();
    entailment_is_refutation();
    entailments_are_sound();
    classical_certificates_are_sound();
    formulas_are_over_their_atoms();
    contexts_are_over_their_atoms();
}
