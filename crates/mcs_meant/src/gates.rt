//! Variables that are true exactly where two literals make them so.

ghost use Rattle.std.specs.Prelude.{◌≡◌, ◌+◌, ◌<◌, ◌^◌, ◌&&◌, ◌||◌, neg_ℤ, pos, IfOk};
ghost use Rattle.mcs_system.specs.Logic.{both_or_neither};
ghost use Rattle.mcs_system.specs.Seen.{formula_of};
ghost use Rattle.mcs_trace.specs.Clauses.{IsLiteral, IsClauseList, literal_holds};
ghost use Rattle.mcs_cnf.specs.ClauseLists.{IsThere};
ghost use Rattle.mcs_meant.specs.Literals.{sign_of, IsGate};

use mcs_base::Memory;
use mcs_cnf::push_clause;
use mcs_system::Formula;
use mcs_trace::Cnf;
use std::alloc::Global;

/// The greatest number of variables of a list.
const MOST_VARIABLES: u64 = 0x7fff_ffff_ffff_ffff;

/// The literal that the variable is true.
pub(crate) fn literal(variable: u64) -> i64
    requires { variable < 2 ^ 63 }
    ensures { result ≡ pos variable }
{
    variable as i64
}

/// The literal that says the opposite.
pub(crate) fn opposite(literal: i64) -> i64
    requires { IsLiteral literal }
    ensures { result ≡ neg_ℤ literal }
{
    -literal
}

/// Adds a variable, and returns the literal that it is true. If all are taken, this is reported as
/// want of memory: no memory can hold so many clauses.
pub(crate) fn push_variable(cnf: &mut Cnf) -> Result<i64, Memory>
    ensures literal { IfOk result (λ n. n ≡ pos (cnf.old.vars + 1)) }
    ensures fits { IfOk result IsLiteral }
    ensures kept { IsClauseList cnf.old }
    ensures added { IfOk result (λ _. cnf.new ≡ record cnf.old { vars = cnf.old.vars + 1 }) }
{
    if cnf.vars() >= MOST_VARIABLES {
        return Err(Memory);
    }
    Ok(cnf.add_variable() as i64)
}

/// Adds a variable that is true exactly where both literals are, and returns its literal.
fn push_both(alloc: Global, cnf: &mut Cnf, x: i64, y: i64) -> Result<i64, Memory>
    requires left { IsThere cnf.old x }
    requires right { IsThere cnf.old y }
    ensures { IfOk result (IsGate (λ v. literal_holds v x && literal_holds v y) cnf.old cnf.new) }
{
    let n = push_variable(cnf)?;
    let not_n = opposite(n);
    let not_x = opposite(x);
    let not_y = opposite(y);
    push_clause(alloc, cnf, &[not_n, x])?;
    push_clause(alloc, cnf, &[not_n, y])?;
    push_clause(alloc, cnf, &[n, not_x, not_y])?;
    Ok(n)
}

/// Adds a variable that is true exactly where one of the literals is, and returns its literal.
fn push_either(alloc: Global, cnf: &mut Cnf, x: i64, y: i64) -> Result<i64, Memory>
    requires left { IsThere cnf.old x }
    requires right { IsThere cnf.old y }
    ensures { IfOk result (IsGate (λ v. literal_holds v x || literal_holds v y) cnf.old cnf.new) }
{
    let n = push_variable(cnf)?;
    let not_n = opposite(n);
    let not_x = opposite(x);
    let not_y = opposite(y);
    push_clause(alloc, cnf, &[n, not_x])?;
    push_clause(alloc, cnf, &[n, not_y])?;
    push_clause(alloc, cnf, &[not_n, x, y])?;
    Ok(n)
}

/// Adds a variable that is true exactly where both literals are or neither is, and returns its
/// literal.
fn push_same(alloc: Global, cnf: &mut Cnf, x: i64, y: i64) -> Result<i64, Memory>
    requires left { IsThere cnf.old x }
    requires right { IsThere cnf.old y }
    ensures { IfOk result (IsGate (λ v. both_or_neither (literal_holds v x) (literal_holds v y))
        cnf.old cnf.new) }
{
    let n = push_variable(cnf)?;
    let not_n = opposite(n);
    let not_x = opposite(x);
    let not_y = opposite(y);
    push_clause(alloc, cnf, &[not_n, not_x, y])?;
    push_clause(alloc, cnf, &[not_n, x, not_y])?;
    push_clause(alloc, cnf, &[n, x, y])?;
    push_clause(alloc, cnf, &[n, not_x, not_y])?;
    Ok(n)
}

/// Adds a variable that is true exactly where the formula is, whose two parts have the literals `x`
/// and `y`, and returns its literal.
pub(crate) fn push_sign(
    alloc: Global,
    cnf: &mut Cnf,
    formula: &Formula,
    x: i64,
    y: i64,
) -> Result<i64, Memory>
    requires left { IsThere cnf.old x }
    requires right { IsThere cnf.old y }
    ensures { IfOk result (IsGate (λ v. sign_of (formula_of formula.now) (literal_holds v x)
        (literal_holds v y)) cnf.old cnf.new) }
{
    // The contract of `vars` ensures that the literals fit.
    let _ = cnf.vars();
    match formula {
        Formula::Or(_, _) => push_either(alloc, cnf, x, y),
        Formula::Implies(_, _) => push_either(alloc, cnf, opposite(x), y),
        Formula::Iff(_, _) => push_same(alloc, cnf, x, y),
        _ => push_both(alloc, cnf, x, y),
    }
}
