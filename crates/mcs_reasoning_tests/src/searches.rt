//! Lists of clauses, and pigeons.

use mcs_sat::{Outcome, solve};
use mcs_trace::{Clause, Cnf, Trace, check};
use std::alloc::Global;
use std::mem;

/// Adds the clause, if it is one that the list may have, and there is memory for it.
fn push(alloc: Global, cnf: &mut Cnf, lits: &[i64]) -> Option<()> {
    let clause = Clause::new(lits.to_vec(alloc).ok()?)?;
    if cnf.can_push(&clause) {
        cnf.push(clause).ok()
    } else {
        drop(clause);
        None
    }
}

/// Adds the clauses.
pub(crate) fn push_all(alloc: Global, cnf: &mut Cnf, clauses: &[&[i64]]) -> Option<()> {
    for lits in clauses {
        push(alloc, cnf, lits)?;
    }
    Some(())
}

/// The list of the clauses.
pub(crate) fn list(alloc: Global, vars: u32, clauses: &[&[i64]]) -> Option<Cnf> {
    let mut cnf = Cnf::new(alloc, u64::from(vars));
    push_all(alloc, &mut cnf, clauses)?;
    Some(cnf)
}

/// What says that the pigeon sits in the hole.
fn sits(pigeon: u8, hole: u8, holes: u8) -> i64 {
    i64::from(pigeon) * i64::from(holes) + i64::from(hole) + 1
}

/// The pigeon sits in a hole.
fn push_seats(alloc: Global, cnf: &mut Cnf, pigeon: u8, holes: u8) -> Option<()> {
    let mut seats = Vec::new(alloc);
    for hole in 0..holes {
        seats.push(sits(pigeon, hole, holes)).ok()?;
    }
    push(alloc, cnf, &seats)
}

/// No two pigeons sit in the hole.
fn push_apart(alloc: Global, cnf: &mut Cnf, hole: u8, holes: u8) -> Option<()> {
    for second in 0..holes.saturating_add(1) {
        for first in 0..second {
            let one = sits(first, hole, holes).wrapping_neg();
            let other = sits(second, hole, holes).wrapping_neg();
            push(alloc, cnf, &[one, other])?;
        }
    }
    Some(())
}

/// Each pigeon, one more than there are holes, sits in a hole.
fn push_all_seats(alloc: Global, cnf: &mut Cnf, holes: u8) -> Option<()> {
    for pigeon in 0..holes.saturating_add(1) {
        push_seats(alloc, cnf, pigeon, holes)?;
    }
    Some(())
}

/// One pigeon more than there are holes: each sits in a hole, and no two in one.
fn pigeons(alloc: Global, holes: u8) -> Option<Cnf> {
    let vars = u64::from(holes) * (u64::from(holes) + 1);
    let mut cnf = Cnf::new(alloc, vars);
    push_all_seats(alloc, &mut cnf, holes)?;
    for hole in 0..holes {
        push_apart(alloc, &mut cnf, hole, holes)?;
    }
    Some(cnf)
}

/// Adds the number to the name at this place of the step's chain, if it has the place.
fn shift_name(trace: &mut Trace, at: usize, place: usize, by: u64) -> bool {
    match trace.steps.get_mut(at) {
        Some(step) => match step.chain.get_mut(place) {
            Some(name) => {
                *name = name.wrapping_add(by);
                true
            }
            None => false,
        },
        None => false,
    }
}

/// Whether the trace is accepted with the name of no clause at this place of the step's chain, if
/// it has the place. Want of memory counts as accepted.
fn is_loose_name(alloc: Global, cnf: &Cnf, trace: &mut Trace, at: usize, place: usize) -> bool {
    if !shift_name(trace, at, place, 1000) {
        return false;
    }
    let is_accepted = check(alloc, cnf, trace);
    shift_name(trace, at, place, 1000_u64.wrapping_neg());
    is_accepted != Ok(false)
}

/// The clause with the literal at the place turned, if it is a clause and there is memory for it.
fn turned(alloc: Global, literals: &[i64], place: usize) -> Option<Clause> {
    let mut literals = literals.to_vec(alloc).ok()?;
    if let Some(literal) = literals.get_mut(place) {
        *literal = literal.wrapping_neg();
    }
    Clause::new(literals)
}

/// Turns the literal at this place of the step's clause, if that gives a clause.
fn turn(alloc: Global, trace: &mut Trace, at: usize, place: usize) -> bool {
    let Some(step) = trace.steps.get_mut(at) else {
        return false;
    };
    match turned(alloc, step.clause.literals(), place) {
        Some(clause) => {
            drop(mem::replace(&mut step.clause, clause));
            true
        }
        None => false,
    }
}

/// Whether the trace is accepted with the literal at this place of the step's clause turned. Want
/// of memory, and that no clause is left, count as accepted.
fn is_loose_literal(alloc: Global, cnf: &Cnf, trace: &mut Trace, at: usize, place: usize) -> bool {
    let is_turned = turn(alloc, trace, at, place);
    let is_accepted = check(alloc, cnf, trace);
    turn(alloc, trace, at, place);
    !is_turned || is_accepted != Ok(false)
}

/// How many literals the step's clause has, and how many names its chain.
fn sizes(trace: &Trace, at: usize) -> (usize, usize) {
    match trace.steps.get(at) {
        Some(step) => (step.clause.literals().len(), step.chain.len()),
        None => (0, 0),
    }
}

/// Whether some literal of the step's clause or some name of its chain may be another.
fn is_loose(alloc: Global, cnf: &Cnf, trace: &mut Trace, at: usize) -> bool {
    let (literals, names) = sizes(trace, at);
    let mut is_loose = false;
    for place in 0..literals.max(names) {
        is_loose = is_loose
            || place < literals && is_loose_literal(alloc, cnf, trace, at, place)
            || is_loose_name(alloc, cnf, trace, at, place);
    }
    is_loose
}

/// Whether the trace is accepted, and no longer with any one number changed.
fn is_tight(alloc: Global, cnf: &Cnf, trace: &mut Trace) -> bool {
    let mut is_tight = true;
    for at in 0..trace.steps.len() {
        is_tight = is_tight && !is_loose(alloc, cnf, trace, at);
    }
    is_tight && check(alloc, cnf, trace) == Ok(true)
}

/// Whether the clauses are refuted by a trace that is accepted; no longer with any one number
/// changed, where that is asked.
fn are_refuted(alloc: Global, cnf: &Cnf, tightly: bool) -> bool {
    let Ok(Outcome::Refuted(mut trace)) = solve(alloc, cnf) else {
        return false;
    };
    let is_right = if tightly {
        is_tight(alloc, cnf, &mut trace)
    } else {
        check(alloc, cnf, &trace) == Ok(true)
    };
    drop(trace);
    is_right
}

/// Whether so many holes are told to be too few, by a trace of which each number is needed where
/// that is asked.
fn are_too_few(alloc: Global, holes: u8, tightly: bool) -> bool {
    let Some(cnf) = pigeons(alloc, holes) else {
        return false;
    };
    let are_refuted = are_refuted(alloc, &cnf, tightly);
    drop(cnf);
    are_refuted
}

#[test]
fn pigeons_are_refuted_by_each_number_of_the_trace(rt: HostRuntime) {
    assert!(rt; are_too_few(rt.alloc(), 5, true));
}

#[test]
fn nine_pigeons_do_not_fit_into_eight_holes(rt: HostRuntime) {
    assert!(rt; are_too_few(rt.alloc(), 8, false));
}
