//! Adding clauses of formulas to known ones.

ghost use Rattle.std.specs.Prelude.{◌≡◌, ◌≤◌, length, map, OnOk, OnErr};
ghost use Rattle.mcs_system.specs.Seen.{formula_of};
ghost use Rattle.mcs_cnf.specs.ClauseLists.{IsOver, AreOver};
ghost use Rattle.mcs_meant.specs.Meanings.{AddsFormula};
ghost use Rattle.mcs_classical.specs.Calls.{AddsOrKeeps};
ghost use Rattle.mcs_classical.specs.Given.{given_names, given_with};

use crate::assumptions::assumed;
use crate::given::Given;
use mcs_base::{Active, Memory};
use mcs_cnf::push_all;
use mcs_meant::clauses_for;
use mcs_sat::ClauseBase;
use mcs_system::{Formula, Name};
use mcs_trace::Cnf;
use std::alloc::Global;

/// Adds the clauses of the formulas. If memory runs out, `known` is as before.
pub fn add_formulas(
    alloc: Global,
    known: &mut ClauseBase,
    formulas: &[&Formula],
    atoms: &[Name],
) -> Result<(), Memory>
    requires over { AreOver atoms.now (map (λ f. formula_of f.now) formulas.now) }
    requires room { length atoms.now ≤ known.old.vars }
    ensures { AddsOrKeeps atoms.now (map (λ f. formula_of f.now) formulas.now) known.old
        known.new result }
{
    let mut more = Cnf::new(alloc, known.vars());
    push_all(alloc, &mut more, formulas, atoms)?;
    let added = known.append(&more);
    drop(more);
    added
}

/// Adds clauses that mean the formula too, with a variable only for each subformula that is no atom
/// and no denial. If memory runs out, `known` is as before.
pub fn add_meant(
    alloc: Global,
    known: &mut ClauseBase,
    formula: &Formula,
    atoms: &[Name],
) -> Result<(), Memory>
    requires over { IsOver atoms.now (formula_of formula.now) }
    requires room { length atoms.now ≤ known.old.vars }
    ensures ok { OnOk result (AddsFormula atoms.now (formula_of formula.now) known.old known.new) }
    ensures err { OnErr result (known.new ≡ known.old) }
{
    let more = clauses_for(alloc, known.vars(), atoms, formula)?;
    let added = known.append(&more);
    drop(more);
    added
}

/// Adds the clauses of the assumptions in the set. If memory runs out, `known` is as before.
pub(crate) fn add_assumed(
    alloc: Global,
    known: &mut ClauseBase,
    given: &Given<'_>,
    set: Active,
) -> Result<(), Memory>
    requires { length (given_names given.now) ≤ known.old.vars }
    ensures { AddsOrKeeps (given_names given.now) (given_with given.now set) known.old
        known.new result }
{
    let formulas = assumed(alloc, given.assumptions, set)?;
    let added = add_formulas(alloc, known, &formulas, given.asked.atoms);
    drop(formulas);
    added
}
