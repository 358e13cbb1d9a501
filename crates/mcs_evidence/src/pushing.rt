//! The clauses of conjunctions and disjunctions that are built name by name, and of the rules of
//! programs. The formulas are not built.

ghost use Rattle.std.specs.Prelude.{◌≡◌, ◌≤◌, ◌++◌, List, [], ◌∷◌, None, Some, length, map, IfOk};
ghost use Rattle.std.specs.Prelude.{IsTrue, OnOk};
ghost use Rattle.mcs_system.specs.Logic.{is_in};
ghost use Rattle.mcs_system.specs.Plain as plain;
ghost use Rattle.mcs_system.specs.Seen.{rule_of};
ghost use Rattle.mcs_trace.specs.Clauses.{ClauseList};
ghost use Rattle.mcs_cnf.specs.ClauseLists.{with_formulas, and_clauses, or_clauses};
ghost use Rattle.mcs_evidence.specs.Added.{CanAdd, AddsFormulas, AddsOccurrence, AddsPart};
ghost use Rattle.mcs_evidence.specs.Added.{AddsToConjunction, AddsWhole};
ghost use Rattle.mcs_evidence.specs.Programs.{atoms_as, negated_atoms, conjunction, disjunction};
ghost use Rattle.mcs_evidence.specs.Programs.{rule_formula, AreOverRules, IsOverRule};
ghost use Rattle.mcs_evidence.specs.Pushing.{AreNamesOf, IsListVariable, IsVariablePart};
ghost use Rattle.mcs_evidence.specs.Pushing.{HasOccurrences, HasConjunction, HasDisjunction};
ghost use Rattle.mcs_evidence.specs.Pushing.{IsJoinedPart};

use mcs_base::Memory;
use mcs_cnf::{
    atom_number, push_and, push_falsity, push_implies, push_not, push_or, push_truth, push_unit,
};
use mcs_system::{Name, ProgRule};
use mcs_trace::Cnf;
use std::alloc::Global;

/// Adds the conjunction of the one with number `all`, if there is one, and of `x`. Returns its
/// number, which is `x` if there was none.
pub(crate) fn join(alloc: Global, cnf: &mut Cnf, all: Option<u64>, x: u64) -> Result<u64, Memory>
    requires part { IsVariablePart cnf.old all }
    requires next { IsListVariable cnf.old x }
    ensures { IfOk result (AddsPart and_clauses cnf.old cnf.new all x) }
{
    match all {
        None => Ok(x),
        Some(y) => push_and(alloc, cnf, y, x),
    }
}

/// The same with a disjunction.
pub(crate) fn join_either(
    alloc: Global,
    cnf: &mut Cnf,
    any: Option<u64>,
    x: u64,
) -> Result<u64, Memory>
    requires part { IsVariablePart cnf.old any }
    requires next { IsListVariable cnf.old x }
    ensures { IfOk result (AddsPart or_clauses cnf.old cnf.new any x) }
{
    match any {
        None => Ok(x),
        Some(y) => push_or(alloc, cnf, y, x),
    }
}

/// The number of an atom. It has to be one of the names.
pub(crate) fn atom_of(cnf: &Cnf, atoms: &[Name], name: &Name) -> u64
    requires { CanAdd atoms.now cnf.now (IsTrue (is_in name.now atoms.now)) }
    ensures { AddsOccurrence atoms.now (plain.Atom name.now) cnf.now cnf.now result }
{
    atom_number(atoms, name)
}

/// Adds an occurrence of the negation of an atom, and returns its number. The atom has to be one of
/// the names.
pub(crate) fn push_negated(
    alloc: Global,
    cnf: &mut Cnf,
    atoms: &[Name],
    name: &Name,
) -> Result<u64, Memory>
    requires { CanAdd atoms.now cnf.old (IsTrue (is_in name.now atoms.now)) }
    ensures { IfOk result (AddsOccurrence atoms.now (plain.Not (plain.Atom name.now)) cnf.old
        cnf.new) }
{
    let x = atom_of(cnf, atoms, name);
    push_not(alloc, cnf, x)
}

/// Adds the names, as atoms, to a conjunction. `all` is its number, if it has parts. Returns its
/// new number.
pub(crate) fn join_atoms(
    alloc: Global,
    cnf: &mut Cnf,
    atoms: &[Name],
    names: &[Name],
    mut all: Option<u64>,
) -> Result<Option<u64>, Memory>
    requires can { CanAdd atoms.now cnf.old (AreNamesOf atoms.now names.now) }
    requires part { IsVariablePart cnf.old all }
    ensures { IfOk result (AddsToConjunction atoms.now (atoms_as names.now) cnf.old cnf.new all) }
{
    for name in names {
        let x = atom_of(cnf, atoms, name);
        let n = join(alloc, cnf, all, x)?;
        all = Some(n);
    }
    Ok(all)
}

/// Adds the negations of the names to a conjunction in the same way.
pub(crate) fn join_negated(
    alloc: Global,
    cnf: &mut Cnf,
    atoms: &[Name],
    names: &[Name],
    mut all: Option<u64>,
) -> Result<Option<u64>, Memory>
    requires can { CanAdd atoms.now cnf.old (AreNamesOf atoms.now names.now) }
    requires part { IsVariablePart cnf.old all }
    ensures { IfOk result (AddsToConjunction atoms.now (negated_atoms names.now) cnf.old cnf.new
        all) }
{
    for name in names {
        let x = push_negated(alloc, cnf, atoms, name)?;
        let n = join(alloc, cnf, all, x)?;
        all = Some(n);
    }
    Ok(all)
}

/// The number of a whole conjunction; one without parts is true.
pub(crate) fn all_of(alloc: Global, cnf: &mut Cnf, all: Option<u64>) -> Result<u64, Memory>
    requires { IsVariablePart cnf.old all }
    ensures { IfOk result (AddsWhole HasConjunction conjunction cnf.old cnf.new all) }
{
    match all {
        None => push_truth(alloc, cnf),
        Some(n) => Ok(n),
    }
}

/// The number of a whole disjunction; one without parts is false.
pub(crate) fn any_of(alloc: Global, cnf: &mut Cnf, any: Option<u64>) -> Result<u64, Memory>
    requires { IsVariablePart cnf.old any }
    ensures { IfOk result (AddsWhole HasDisjunction disjunction cnf.old cnf.new any) }
{
    match any {
        None => push_falsity(alloc, cnf),
        Some(n) => Ok(n),
    }
}

/// Adds the disjunction of the names, and returns its number.
pub(crate) fn push_either(
    alloc: Global,
    cnf: &mut Cnf,
    atoms: &[Name],
    names: &[Name],
) -> Result<u64, Memory>
    requires { CanAdd atoms.now cnf.old (AreNamesOf atoms.now names.now) }
    ensures { IfOk result (AddsOccurrence atoms.now (disjunction (atoms_as names.now)) cnf.old
        cnf.new) }
{
    let mut any = None;
    for name in names {
        let x = atom_of(cnf, atoms, name);
        let n = join_either(alloc, cnf, any, x)?;
        any = Some(n);
    }
    any_of(alloc, cnf, any)
}

/// Adds the clauses of the rule with this head and body.
pub(crate) fn push_rule(
    alloc: Global,
    cnf: &mut Cnf,
    atoms: &[Name],
    head: &[Name],
    pos: &[Name],
    neg: &[Name],
) -> Result<(), Memory>
    requires { CanAdd atoms.now cnf.old (IsOverRule atoms.now (record { head = head.now; pos = pos.now; neg = neg.now })) }
    ensures { OnOk result (AddsFormulas atoms.now (rule_formula (record {
      head = head.now;
      pos =
          pos.now;
      neg = neg.now;
    }) ∷ []) cnf.old cnf.new) }
{
    let body = join_atoms(alloc, cnf, atoms, pos, None)?;
    let body = join_negated(alloc, cnf, atoms, neg, body)?;
    let x = all_of(alloc, cnf, body)?;
    let y = push_either(alloc, cnf, atoms, head)?;
    let n = push_implies(alloc, cnf, x, y)?;
    push_unit(alloc, cnf, n)
}

/// Adds the clauses of the rules.
pub(crate) fn push_rules(
    alloc: Global,
    cnf: &mut Cnf,
    atoms: &[Name],
    rules: &[ProgRule],
) -> Result<(), Memory>
    requires { CanAdd atoms.now cnf.old (AreOverRules atoms.now (map rule_of rules.now)) }
    ensures { OnOk result (AddsFormulas atoms.now (map rule_formula (map rule_of rules.now))
        cnf.old cnf.new) }
{
    for rule in rules {
        push_rule(alloc, cnf, atoms, &rule.head, &rule.pos, &rule.neg)?;
    }
    Ok(())
}
