//! The clauses of formulas.

ghost use Rattle.std.specs.Prelude.{◌≡◌, ◌<◌, ◌≤◌, ◌++◌, [], ◌∷◌, length, map, IfOk, OnOk, OnErr};
ghost use Rattle.mcs_system.specs.Plain as plain;
ghost use Rattle.mcs_system.specs.Seen.{formula_of};
ghost use Rattle.mcs_cnf.specs.ClauseLists.{atom_number, taken, number, formula_clauses};
ghost use Rattle.mcs_cnf.specs.ClauseLists.{with_formulas, clause_list, IsOver, AreOver};
ghost use Rattle.mcs_cnf.specs.Denials.{denials_added};

use crate::literals::push_unit;
use crate::occurrences::{push_falsity, push_not, push_sign, push_truth};
use mcs_base::Memory;
use mcs_system::{Formula, Name, denied};
use mcs_trace::Cnf;
use std::alloc::Global;

/// The place of the atom among the atoms, counted from 1.
pub fn atom_number(atoms: &[Name], name: &Name) -> u64
    ensures { result ≡ atom_number atoms.now name.now }
{
    for (index, atom) in atoms.iter().enumerate() {
        if name.is(atom) {
            return index as u64 + 1;
        }
    }
    atoms.len() as u64 + 1
}

/// Adds an occurrence of each denial that the formula begins with, and returns the number of the
/// last one. `x` is the number of what they deny, and is returned where there is none.
fn push_denials(alloc: Global, cnf: &mut Cnf, formula: &Formula, x: u64) -> Result<u64, Memory>
    requires part { (0 < x) × (x ≤ cnf.old.vars) }
    ensures added { IfOk result (λ _. cnf.new
        ≡ (denials_added (formula_of formula.now) cnf.old x).0) }
    ensures number { IfOk result (λ n. n ≡ (denials_added (formula_of formula.now) cnf.old x).1) }
{
    let mut rest = formula;
    let mut number = x;
    while let Formula::Not(inner) = rest {
        number = push_not(alloc, cnf, number)?;
        rest = inner;
    }
    Ok(number)
}

/// Adds the clauses of the occurrences in the formula, and returns the number of the whole.
#[tactic(auto, using(crate::proofs::NumberLemmas::numbers_fit, crate::proofs::DenialLemmas::taken_least))]
fn push_occurrences(
    alloc: Global,
    cnf: &mut Cnf,
    atoms: &[Name],
    formula: &Formula,
) -> Result<u64, Memory>
    requires over { IsOver atoms.now (formula_of formula.now) }
    requires room { length atoms.now ≤ cnf.old.vars }
    ensures number { IfOk result (λ n. n ≡ number atoms.now cnf.old.vars (formula_of formula.now)) }
    ensures room { IfOk result (λ _. length atoms.now ≤ cnf.new.vars) }
    ensures added { IfOk result
        (λ _. cnf.new ≡ record {
          vars = taken cnf.old.vars (formula_of formula.now);
          clauses = cnf.old.clauses ++ formula_clauses atoms.now cnf.old.vars
              (formula_of formula.now);
        }) }
{
    match formula {
        Formula::True => push_truth(alloc, cnf),
        Formula::False => push_falsity(alloc, cnf),
        Formula::Atom(name) => Ok(atom_number(atoms, name)),
        Formula::Not(g) => {
            let x = push_occurrences(alloc, cnf, atoms, denied(g))?;
            push_denials(alloc, cnf, formula, x)
        }
        Formula::And(g, h) | Formula::Or(g, h) | Formula::Implies(g, h) | Formula::Iff(g, h) => {
            let x = push_occurrences(alloc, cnf, atoms, g)?;
            let y = push_occurrences(alloc, cnf, atoms, h)?;
            push_sign(alloc, cnf, formula, x, y)
        }
    }
}

/// Adds the clauses of one more formula over the same atoms: those of its occurrences, which take
/// the next numbers after the variables of the list, and the clause that it is true. If memory runs
/// out, the list is as before.
#[tactic(auto, using(crate::proofs::NumberLemmas::numbers_fit))]
pub fn push_formula(
    alloc: Global,
    cnf: &mut Cnf,
    atoms: &[Name],
    formula: &Formula,
) -> Result<(), Memory>
    requires over { IsOver atoms.now (formula_of formula.now) }
    requires room { length atoms.now ≤ cnf.old.vars }
    ensures ok { OnOk result (cnf.new
        ≡ with_formulas atoms.now cnf.old (formula_of formula.now ∷ [])) }
    ensures err { OnErr result (cnf.new ≡ cnf.old) }
{
    let mut own = Cnf::new(alloc, cnf.vars());
    let n = push_occurrences(alloc, &mut own, atoms, formula)?;
    push_unit(alloc, &mut own, n)?;
    cnf.append(own)
}

/// Adds the clauses of the negation of a formula over the same atoms, as `push_formula` adds those
/// of a formula.
#[tactic(auto, using(crate::proofs::NumberLemmas::numbers_fit))]
pub fn push_negation(
    alloc: Global,
    cnf: &mut Cnf,
    atoms: &[Name],
    formula: &Formula,
) -> Result<(), Memory>
    requires over { IsOver atoms.now (formula_of formula.now) }
    requires room { length atoms.now ≤ cnf.old.vars }
    ensures ok { OnOk result
        (cnf.new ≡ with_formulas atoms.now cnf.old (plain.Not (formula_of formula.now) ∷ [])) }
    ensures err { OnErr result (cnf.new ≡ cnf.old) }
{
    let mut own = Cnf::new(alloc, cnf.vars());
    let x = push_occurrences(alloc, &mut own, atoms, formula)?;
    let n = push_not(alloc, &mut own, x)?;
    push_unit(alloc, &mut own, n)?;
    cnf.append(own)
}

/// Adds the clauses of the formulas, one after the other. If memory runs out, the list is as
/// before.
pub fn push_all(
    alloc: Global,
    known: &mut Cnf,
    formulas: &[&Formula],
    atoms: &[Name],
) -> Result<(), Memory>
    requires over { AreOver atoms.now (map (λ f. formula_of f.now) formulas.now) }
    requires room { length atoms.now ≤ known.old.vars }
    ensures ok { OnOk result (known.new
        ≡ with_formulas atoms.now known.old (map (λ f. formula_of f.now) formulas.now)) }
    ensures err { OnErr result (known.new ≡ known.old) }
{
    let mut own = Cnf::new(alloc, known.vars());
    for formula in formulas {
        push_formula(alloc, &mut own, atoms, formula)?;
    }
    known.append(own)
}

/// The clauses of formulas whose atoms are among `atoms` (Tseitin 1968). Atom i is variable i, from
/// 1. Each occurrence of a subformula that is not an atom has a variable of its own, which takes
/// the next number. The work is linear in the sizes of the formulas, times the number of atoms.
pub fn clauses(alloc: Global, formulas: &[Formula], atoms: &[Name]) -> Result<Cnf, Memory>
    requires { AreOver atoms.now (map formula_of formulas.now) }
    ensures { IfOk result (λ f. f ≡ clause_list atoms.now (map formula_of formulas.now)) }
{
    let mut cnf = Cnf::new(alloc, atoms.len() as u64);
    for formula in formulas {
        push_formula(alloc, &mut cnf, atoms, formula)?;
    }
    Ok(cnf)
}
