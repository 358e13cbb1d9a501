//! Whether formulas are satisfiable.

ghost use Rattle.std.specs.Prelude.{◌≡◌, ◌≤◌, List, false, length, map, IfOk};
ghost use Rattle.mcs_system.specs.Faults.{has_twins};
ghost use Rattle.mcs_system.specs.Plain as plain;
ghost use Rattle.mcs_system.specs.Seen.{formula_of};
ghost use Rattle.mcs_cnf.specs.ClauseLists.{clause_list, AreOver};
ghost use Rattle.mcs_classical.specs.Models.{IsSatisfiedAnswer};

use crate::refuting::true_places;
use mcs_base::{Memory, Vars};
use mcs_cnf::clauses;
use mcs_sat::{Outcome, solve};
use mcs_system::{Formula, Name};
use mcs_trace::{Cnf, Trace};
use std::alloc::Global;

/// The places of the atoms that are true under an assignment that satisfies all formulas, or an
/// accepted trace that there is no such assignment.
#[derive(Drop)]
pub enum Satisfied {
    Model(Vars),
    Refuted(Trace),
}

/// An assignment that satisfies the formulas, or a trace that there is none. All atoms have to be
/// among `atoms`, of which there are at most 64.
pub fn satisfy(alloc: Global, formulas: &[Formula], atoms: &[Name]) -> Result<Satisfied, Memory>
    requires few { length atoms.now ≤ 64 }
    requires different { has_twins atoms.now ≡ false }
    requires formulas { AreOver atoms.now (map formula_of formulas.now) }
    ensures { IfOk result (IsSatisfiedAnswer atoms.now (map formula_of formulas.now)) }
{
    let cnf = clauses(alloc, formulas, atoms)?;
    let satisfied = satisfy_from(alloc, &cnf, atoms);
    drop(cnf);
    satisfied
}

/// The same for formulas with these clauses.
pub fn satisfy_from(alloc: Global, cnf: &Cnf, atoms: &[Name]) -> Result<Satisfied, Memory>
    requires few { length atoms.now ≤ 64 }
    requires different { has_twins atoms.now ≡ false }
    requires room { length atoms.now ≤ cnf.now.vars }
    ensures { IfOk result
        (λ r. (fs : List plain.Formula) → cnf.now ≡ clause_list atoms.now fs → AreOver atoms.now fs
        → IsSatisfiedAnswer atoms.now fs r) }
{
    match solve(alloc, cnf)? {
        Outcome::Refuted(trace) => Ok(Satisfied::Refuted(trace)),
        Outcome::Model(values) => Ok(Satisfied::Model(true_places(&values, atoms.len()))),
    }
}
