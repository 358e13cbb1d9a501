//! Assignments that satisfy formulas, and what shows that there is none.

ghost use Rattle.std.specs.Prelude.{map};
ghost use Rattle.mcs_system.specs.Seen.{formula_of};
ghost use Rattle.mcs_cnf.specs.ClauseLists.{AreOver};

use crate::contexts::{Claim, holds, may_be_asked};
use mcs_base::{Memory, Vars};
use mcs_classical::{Satisfied, satisfy};
use mcs_cnf::clauses;
use mcs_system::{Formula, Name};
use mcs_trace::{Trace, check};
use std::alloc::Global;

/// Whether the trace is accepted for the clauses of the formulas.
fn is_accepted(
    alloc: Global,
    formulas: &[Formula],
    atoms: &[Name],
    trace: &Trace,
) -> Result<bool, Memory>
    requires { AreOver atoms.now (map formula_of formulas.now) }
{
    let cnf = clauses(alloc, formulas, atoms)?;
    check(alloc, &cnf, trace)
}

/// Whether the formulas are told to hold where just the atoms at the places are true; where no
/// places are given, whether they are refuted by a trace that is accepted.
fn are_told(
    alloc: Global,
    formulas: &[Formula],
    atoms: &[Name],
    places: Option<Vars>,
) -> Result<bool, Memory> {
    if !may_be_asked(formulas, atoms) {
        return Ok(false);
    }
    match satisfy(alloc, formulas, atoms)? {
        Satisfied::Model(found) => Ok(places == Some(found)),
        Satisfied::Refuted(trace) => {
            let is_right = is_accepted(alloc, formulas, atoms, &trace);
            drop(trace);
            Ok(is_right? && places.is_none())
        }
    }
}

/// Whether the first two of three formulas are told to hold where just the second atom is true, and
/// all three to be refuted.
pub(crate) fn two_hold(alloc: Global, formulas: &[Formula], atoms: &[Name]) -> bool {
    formulas.len() == 3
        && are_told(alloc, &formulas[..2], atoms, Some(Vars::one(1))) == Ok(true)
        && are_told(alloc, formulas, atoms, None) == Ok(true)
}

#[test]
fn formulas_are_satisfied_or_refuted(rt: HostRuntime) {
    let text: &[u8] = b"context c classical { p | q. ~p. ~q. }";
    assert!(rt; holds(rt.alloc(), text, &Claim::TwoHold));
}
