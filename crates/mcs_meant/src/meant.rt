//! The clauses of a formula, by literals of its subformulas.

ghost use Rattle.std.specs.Prelude.{◌≡◌, ◌<◌, ◌≤◌, ◌^◌, true, length, IfOk};
ghost use Rattle.mcs_system.specs.Seen.{formula_of};
ghost use Rattle.mcs_trace.specs.Clauses.{IsLiteral};
ghost use Rattle.mcs_cnf.specs.ClauseLists.{IsOver};
ghost use Rattle.mcs_meant.specs.Literals.{is_turned, turned_by, IsGate, IsLiteralOf};
ghost use Rattle.mcs_meant.specs.Meanings.{AreClausesFor};

use crate::gates::{literal, opposite, push_sign, push_variable};
use mcs_base::Memory;
use mcs_cnf::{atom_number, push_clause};
use mcs_system::{Formula, Name, denied};
use mcs_trace::Cnf;
use std::alloc::Global;

/// Whether the formula begins with an odd number of denials.
fn is_turned(formula: &Formula) -> bool
    ensures { result ≡ is_turned (formula_of formula.now) }
{
    let mut rest = formula;
    let mut odd = false;
    while let Formula::Not(inner) = rest {
        odd = !odd;
        rest = inner;
    }
    odd
}

/// The literal of the formula, from that of what its first denials deny.
fn turned(formula: &Formula, literal: i64) -> i64
    requires { IsLiteral literal }
    ensures { result ≡ turned_by (formula_of formula.now) literal }
{
    if is_turned(formula) {
        opposite(literal)
    } else {
        literal
    }
}

/// Adds a variable that is true, and returns its literal.
fn push_true(alloc: Global, cnf: &mut Cnf) -> Result<i64, Memory>
    ensures { IfOk result (IsGate (λ _. true) cnf.old cnf.new) }
{
    let n = push_variable(cnf)?;
    push_clause(alloc, cnf, &[n])?;
    Ok(n)
}

/// Adds clauses by which a literal is true exactly where the formula is, and returns it. An atom
/// has the literal of its variable, and a denial the opposite of what it denies; each other
/// subformula has a variable of its own.
#[tactic(auto, using(mcs_cnf::proofs::NumberLemmas::numbers_fit, mcs_cnf::proofs::DenialLemmas::taken_least))]
fn push_literal(
    alloc: Global,
    cnf: &mut Cnf,
    atoms: &[Name],
    formula: &Formula,
) -> Result<i64, Memory>
    requires over { IsOver atoms.now (formula_of formula.now) }
    requires room { length atoms.now ≤ cnf.old.vars }
    ensures { IfOk result (IsLiteralOf atoms.now (formula_of formula.now) cnf.old cnf.new) }
{
    // The contract of `vars` ensures that the numbers of the atoms fit.
    let _ = cnf.vars();
    match formula {
        Formula::True => push_true(alloc, cnf),
        Formula::False => Ok(opposite(push_true(alloc, cnf)?)),
        Formula::Atom(name) => Ok(literal(atom_number(atoms, name))),
        Formula::Not(g) => {
            let x = push_literal(alloc, cnf, atoms, denied(g))?;
            Ok(turned(formula, x))
        }
        Formula::And(g, h) | Formula::Or(g, h) | Formula::Implies(g, h) | Formula::Iff(g, h) => {
            let x = push_literal(alloc, cnf, atoms, g)?;
            let y = push_literal(alloc, cnf, atoms, h)?;
            push_sign(alloc, cnf, formula, x, y)
        }
    }
}

/// Clauses that say that the formula, whose atoms are among `atoms`, is true. Atom i is variable i,
/// from 1, and further variables come after `vars`. A denial takes none. The work is linear in the
/// size of the formula, times the number of atoms.
pub fn clauses_for(
    alloc: Global,
    vars: u64,
    atoms: &[Name],
    formula: &Formula,
) -> Result<Cnf, Memory>
    requires fits { vars < 2 ^ 63 }
    requires over { IsOver atoms.now (formula_of formula.now) }
    requires room { length atoms.now ≤ vars }
    ensures { IfOk result (AreClausesFor atoms.now (formula_of formula.now) vars) }
{
    let mut own = Cnf::new(alloc, vars);
    let literal = push_literal(alloc, &mut own, atoms, formula)?;
    push_clause(alloc, &mut own, &[literal])?;
    Ok(own)
}
