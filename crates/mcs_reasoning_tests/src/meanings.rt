//! The clauses that mean a formula, where a denial takes no variable.

use crate::contexts::{Claim, holds};
use crate::formulas::{are_those, nested};
use mcs_base::Memory;
use mcs_cnf::is_over;
use mcs_meant::clauses_for;
use mcs_system::{Formula, Name};
use std::alloc::Global;

/// The number of variables and the clauses of a formula over two atoms or fewer.
pub(crate) type Meant = (u64, &'static [&'static [i64]]);

/// Whether the formula is over the atoms, and has so many variables and these clauses.
fn has_clauses(
    alloc: Global,
    formula: &Formula,
    atoms: &[Name],
    expected: &Meant,
) -> Result<bool, Memory> {
    if atoms.len() > 2 || !is_over(atoms, formula) {
        return Ok(false);
    }
    let (vars, clauses) = *expected;
    let cnf = clauses_for(alloc, atoms.len() as u64, atoms, formula)?;
    Ok(cnf.vars() == vars && are_those(cnf.clauses(), clauses))
}

/// Whether each of the formulas has the clauses in its row.
pub(crate) fn are_all_meant(
    alloc: Global,
    formulas: &[Formula],
    atoms: &[Name],
    expected: &[Meant],
) -> bool {
    let mut same = formulas.len() == expected.len();
    for (formula, row) in formulas.iter().zip(expected) {
        same = same && has_clauses(alloc, formula, atoms, row) == Ok(true);
    }
    same
}

/// Denials of an atom, once and twice, and of a conjunction; a formula of each other kind over the
/// two atoms; and the constants.
const EACH: &[u8] =
    b"context c classical { ~x. ~~x. ~(x & y). x | y. x -> ~y. x <-> y. true. ~false. false. }";

static CLAUSES_OF_EACH: [Meant; 9] = [
    (2, &[&[-1]]),
    (2, &[&[1]]),
    (3, &[&[1, -3], &[2, -3], &[-1, -2, 3], &[-3]]),
    (3, &[&[-1, 3], &[-2, 3], &[1, 2, -3], &[3]]),
    (3, &[&[1, 3], &[2, 3], &[-1, -2, -3], &[3]]),
    (
        3,
        &[&[-1, 2, -3], &[1, -2, -3], &[1, 2, 3], &[-1, -2, 3], &[3]],
    ),
    (3, &[&[3], &[3]]),
    (3, &[&[3], &[3]]),
    (3, &[&[3], &[-3]]),
];

#[test]
fn a_denial_takes_no_variable(rt: HostRuntime) {
    assert!(rt; holds(rt.alloc(), EACH, &Claim::AreMeant(&CLAUSES_OF_EACH)));
}

static DEEP: [Meant; 1] = [(1, &[&[-1]])];

/// Whether 511 denials of an atom, the most that a text may have, are one clause.
fn is_one_clause(alloc: Global) -> Result<bool, Memory> {
    let text = nested(alloc, 511)?;
    let is_one = holds(alloc, &text, &Claim::AreMeant(&DEEP));
    drop(text);
    Ok(is_one)
}

#[test]
fn many_denials_are_one_clause(rt: HostRuntime) {
    assert!(rt; is_one_clause(rt.alloc()) == Ok(true));
}
