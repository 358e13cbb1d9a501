//! What follows with assumptions, and is kept.

use crate::contexts::{Claim, holds, may_be_asked};
use mcs_asked::Asked;
use mcs_base::{Active, Memory};
use mcs_classical::{Assumption, Consequences, Given};
use mcs_cnf::{clauses, is_over};
use mcs_sat::ClauseBase;
use mcs_system::{Formula, Name};
use std::alloc::Global;

/// Two formulas that are known, three that are assumed by the numbers 0, 3 and 5, and three goals.
const FORMULAS: &str = "context c classical { p -> q. r & s -> t. p. r. s. q. t. p | r. }";

/// Sets of assumptions, and the places of the goals that follow with them, asked one after the
/// other. Number 1 is of no assumption.
const QUESTIONS: &[(u64, u64)] = &[
    (0b000000, 0b000),
    (0b000001, 0b101),
    (0b001001, 0b101),
    (0b101001, 0b111),
    (0b101000, 0b110),
    (0b001000, 0b100),
    (0b100000, 0b000),
    (0b000011, 0b101),
    (0b000001, 0b101),
    (0b101011, 0b111),
];

/// Whether just these of the goals are told to follow with these assumptions.
fn are_told(
    alloc: Global,
    known: &mut ClauseBase,
    found: &mut Consequences,
    given: &Given<'_>,
    question: (u64, u64),
) -> Result<bool, Memory> {
    let (set, follow) = question;
    if known.vars() < given.asked.atoms.len() as u64 {
        return Ok(false);
    }
    let told = found.following(alloc, known, given, Active::numbered(set))?;
    Ok(told.number() == follow)
}

/// Whether each question is answered as it should be.
fn are_answered(alloc: Global, known: &mut ClauseBase, given: &Given<'_>) -> bool {
    let mut found = Consequences::new(alloc);
    let mut are_right = true;
    for question in QUESTIONS {
        are_right &= are_told(alloc, known, &mut found, given, *question) == Ok(true);
    }
    drop(found);
    are_right
}

/// The same, of the formulas of a text.
pub(crate) fn are_kept(
    alloc: Global,
    formulas: &[Formula],
    atoms: &[Name],
) -> Result<bool, Memory> {
    let [_, _, p, r, s, q, t, either] = formulas else {
        return Ok(false);
    };
    if !may_be_asked(&formulas[..2], atoms)
        || !(is_over(atoms, p) && is_over(atoms, r) && is_over(atoms, s))
        || !(is_over(atoms, q) && is_over(atoms, t) && is_over(atoms, either))
    {
        return Ok(false);
    }
    let assumptions = [
        Assumption {
            number: 0,
            formula: p,
        },
        Assumption {
            number: 3,
            formula: r,
        },
        Assumption {
            number: 5,
            formula: s,
        },
    ];
    let beliefs = [q, t, either];
    let asked = Asked {
        atoms,
        beliefs: &beliefs,
    };
    let given = Given {
        asked: &asked,
        assumptions: &assumptions,
    };
    let cnf = clauses(alloc, &formulas[..2], atoms)?;
    let known = ClauseBase::of(alloc, &cnf);
    drop(cnf);
    let mut known = known?;
    let answered = are_answered(alloc, &mut known, &given);
    drop(known);
    Ok(answered)
}

#[test]
fn what_was_found_is_told_again(rt: HostRuntime) {
    assert!(rt; holds(rt.alloc(), FORMULAS.as_bytes(), &Claim::AreKept));
}
