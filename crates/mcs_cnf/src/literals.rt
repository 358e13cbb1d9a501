//! The literals of a variable, and clauses of literals in any order.

ghost use Rattle.std.specs.Prelude.{◌≡◌, ◌+◌, ◌<◌, ◌^◌, ◌≤◌, [], ◌∷◌, ◌++◌, map, pos, IfOk, OnOk};
ghost use Rattle.std.specs.Prelude.{OnErr};
ghost use Rattle.std.specs.List.{AllByRecursion};
ghost use Rattle.mcs_trace.specs.Clauses.{IsLiteral};
ghost use Rattle.mcs_cnf.specs.ClauseLists.{clause_of, non, with_clause, IsThere};

use mcs_base::Memory;
use mcs_trace::{Clause, Cnf};
use std::alloc::Global;

/// The literal that says that the variable is true.
pub(crate) fn yes(variable: u64) -> i64
    requires { variable < 2 ^ 63 }
    ensures { result ≡ pos variable }
{
    variable as i64
}

/// The literal that says that the variable is false.
pub(crate) fn no(variable: u64) -> i64
    requires { variable < 2 ^ 63 }
    ensures { result ≡ non variable }
{
    -(variable as i64)
}

/// The clause of these literals, which may be in any order.
fn clause_of(alloc: Global, lits: &[i64]) -> Result<Clause, Memory>
    requires { AllByRecursion IsLiteral lits.now }
    ensures { IfOk result (λ c. c ≡ clause_of lits.now) }
{
    let mut clause = Clause::empty(alloc);
    for literal in lits {
        clause.insert(*literal)?;
    }
    Ok(clause)
}

/// Adds the clause of these literals, which may be in any order. If memory runs out, the list is as
/// before.
pub fn push_clause(alloc: Global, cnf: &mut Cnf, lits: &[i64]) -> Result<(), Memory>
    requires { AllByRecursion (IsThere cnf.old) lits.now }
    ensures ok { IfOk result (λ _. cnf.new ≡ with_clause cnf.old lits.now) }
    ensures err { OnErr result (cnf.new ≡ cnf.old) }
{
    // The contract of `vars` ensures that there are fewer than 2^63 variables.
    let _ = cnf.vars();
    let clause = clause_of(alloc, lits)?;
    cnf.push(clause)
}

/// Adds the clause that the variable is true. If memory runs out, the list is as before.
pub fn push_unit(alloc: Global, cnf: &mut Cnf, variable: u64) -> Result<(), Memory>
    requires { (0 < variable) × (variable ≤ cnf.old.vars) }
    ensures ok { IfOk result (λ _. cnf.new ≡ with_clause cnf.old (pos variable ∷ [])) }
    ensures err { OnErr result (cnf.new ≡ cnf.old) }
{
    // The number fits, since the contract of `vars` ensures that there are fewer than 2^63
    // variables.
    let _ = cnf.vars();
    push_clause(alloc, cnf, &[yes(variable)])
}

/// Adds the next variable, and clauses over it and those before it. The literals of each may be in
/// any order. If memory runs out, the list is as before.
pub(crate) fn push_variable(alloc: Global, cnf: &mut Cnf, rows: &[&[i64]]) -> Result<(), Memory>
    requires room { cnf.old.vars + 1 < 2 ^ 63 }
    requires rows { AllByRecursion (λ r. AllByRecursion
        (IsThere (record cnf.old { vars = cnf.old.vars + 1 })) r.now) rows.now }
    ensures ok { OnOk result (cnf.new ≡ record {
      vars = cnf.old.vars + 1;
      clauses = cnf.old.clauses ++ map (λ r. clause_of r.now) rows.now;
    }) }
    ensures err { OnErr result (cnf.new ≡ cnf.old) }
{
    let vars = cnf.vars();
    let count = cnf.clauses().len();
    cnf.add_variable();
    for row in rows {
        if let Err(error) = push_clause(alloc, cnf, row) {
            cnf.cut(vars, count);
            return Err(error);
        }
    }
    Ok(())
}
