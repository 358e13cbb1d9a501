//! Occurrences of subformulas: the variable of each, and the clauses that define it.

ghost use Rattle.std.specs.Prelude.{◌≡◌, ◌+◌, ◌<◌, ◌≤◌, ◌^◌, IfOk, OnErr};
ghost use Rattle.mcs_system.specs.Seen.{formula_of};
ghost use Rattle.mcs_cnf.specs.ClauseLists.{truth_clauses, falsity_clauses, not_clauses};
ghost use Rattle.mcs_cnf.specs.ClauseLists.{and_clauses, or_clauses, implies_clauses, iff_clauses};
ghost use Rattle.mcs_cnf.specs.ClauseLists.{own_clauses, IsAdded};

use crate::literals::{no, push_variable, yes};
use mcs_base::Memory;
use mcs_system::Formula;
use mcs_trace::Cnf;
use std::alloc::Global;

/// The greatest number of variables of a list.
const MOST_VARIABLES: u64 = 0x7fff_ffff_ffff_ffff;

/// The next number of a variable. If all are taken, this is reported as want of memory: no memory
/// can hold so many clauses.
fn next_number(cnf: &Cnf) -> Result<u64, Memory>
    ensures number { IfOk result (λ n. n ≡ cnf.now.vars + 1) }
    ensures fits { IfOk result (λ n. n < 2 ^ 63) }
{
    if cnf.vars() >= MOST_VARIABLES {
        return Err(Memory);
    }
    Ok(cnf.vars() + 1)
}

/// Adds an occurrence of the constant true, and returns its number. If memory runs out, the list is
/// as before.
pub fn push_truth(alloc: Global, cnf: &mut Cnf) -> Result<u64, Memory>
    ensures ok { IfOk result (IsAdded truth_clauses cnf.old cnf.new) }
    ensures err { OnErr result (cnf.new ≡ cnf.old) }
{
    let n = next_number(cnf)?;
    push_variable(alloc, cnf, &[&[yes(n)]])?;
    Ok(n)
}

/// Adds an occurrence of the constant false, and returns its number. If memory runs out, the list
/// is as before.
pub fn push_falsity(alloc: Global, cnf: &mut Cnf) -> Result<u64, Memory>
    ensures ok { IfOk result (IsAdded falsity_clauses cnf.old cnf.new) }
    ensures err { OnErr result (cnf.new ≡ cnf.old) }
{
    let n = next_number(cnf)?;
    push_variable(alloc, cnf, &[&[no(n)]])?;
    Ok(n)
}

/// Adds an occurrence of the negation of `x`, and returns its number. If memory runs out, the list
/// is as before.
pub fn push_not(alloc: Global, cnf: &mut Cnf, x: u64) -> Result<u64, Memory>
    requires part { (0 < x) × (x ≤ cnf.old.vars) }
    ensures ok { IfOk result (IsAdded (λ n. not_clauses n x) cnf.old cnf.new) }
    ensures err { OnErr result (cnf.new ≡ cnf.old) }
{
    let n = next_number(cnf)?;
    push_variable(alloc, cnf, &[&[no(n), no(x)], &[yes(n), yes(x)]])?;
    Ok(n)
}

/// Adds an occurrence of `x` and `y`, and returns its number. If memory runs out, the list is as
/// before.
pub fn push_and(alloc: Global, cnf: &mut Cnf, x: u64, y: u64) -> Result<u64, Memory>
    requires left { (0 < x) × (x ≤ cnf.old.vars) }
    requires right { (0 < y) × (y ≤ cnf.old.vars) }
    ensures ok { IfOk result (IsAdded (λ n. and_clauses n x y) cnf.old cnf.new) }
    ensures err { OnErr result (cnf.new ≡ cnf.old) }
{
    let n = next_number(cnf)?;
    push_variable(
        alloc,
        cnf,
        &[&[no(n), yes(x)], &[no(n), yes(y)], &[yes(n), no(x), no(y)]],
    )?;
    Ok(n)
}

/// Adds an occurrence of `x` or `y`, and returns its number. If memory runs out, the list is as
/// before.
pub fn push_or(alloc: Global, cnf: &mut Cnf, x: u64, y: u64) -> Result<u64, Memory>
    requires left { (0 < x) × (x ≤ cnf.old.vars) }
    requires right { (0 < y) × (y ≤ cnf.old.vars) }
    ensures ok { IfOk result (IsAdded (λ n. or_clauses n x y) cnf.old cnf.new) }
    ensures err { OnErr result (cnf.new ≡ cnf.old) }
{
    let n = next_number(cnf)?;
    push_variable(
        alloc,
        cnf,
        &[&[yes(n), no(x)], &[yes(n), no(y)], &[no(n), yes(x), yes(y)]],
    )?;
    Ok(n)
}

/// Adds an occurrence of `x` implies `y`, and returns its number. If memory runs out, the list is
/// as before.
pub fn push_implies(alloc: Global, cnf: &mut Cnf, x: u64, y: u64) -> Result<u64, Memory>
    requires left { (0 < x) × (x ≤ cnf.old.vars) }
    requires right { (0 < y) × (y ≤ cnf.old.vars) }
    ensures ok { IfOk result (IsAdded (λ n. implies_clauses n x y) cnf.old cnf.new) }
    ensures err { OnErr result (cnf.new ≡ cnf.old) }
{
    let n = next_number(cnf)?;
    push_variable(
        alloc,
        cnf,
        &[&[yes(n), yes(x)], &[yes(n), no(y)], &[no(n), no(x), yes(y)]],
    )?;
    Ok(n)
}

/// Adds an occurrence of `x` if and only if `y`, and returns its number.
fn push_iff(alloc: Global, cnf: &mut Cnf, x: u64, y: u64) -> Result<u64, Memory>
    requires left { (0 < x) × (x ≤ cnf.old.vars) }
    requires right { (0 < y) × (y ≤ cnf.old.vars) }
    ensures ok { IfOk result (IsAdded (λ n. iff_clauses n x y) cnf.old cnf.new) }
    ensures err { OnErr result (cnf.new ≡ cnf.old) }
{
    let n = next_number(cnf)?;
    push_variable(
        alloc,
        cnf,
        &[
            &[no(n), no(x), yes(y)],
            &[no(n), yes(x), no(y)],
            &[yes(n), yes(x), yes(y)],
            &[yes(n), no(x), no(y)],
        ],
    )?;
    Ok(n)
}

/// Adds an occurrence of the formula, whose two operands have the numbers `x` and `y`, and returns
/// its number.
pub(crate) fn push_sign(
    alloc: Global,
    cnf: &mut Cnf,
    formula: &Formula,
    x: u64,
    y: u64,
) -> Result<u64, Memory>
    requires left { (0 < x) × (x ≤ cnf.old.vars) }
    requires right { (0 < y) × (y ≤ cnf.old.vars) }
    ensures ok { IfOk result (IsAdded (λ n. own_clauses (formula_of formula.now) n x y) cnf.old
        cnf.new) }
    ensures err { OnErr result (cnf.new ≡ cnf.old) }
{
    match formula {
        Formula::And(_, _) => push_and(alloc, cnf, x, y),
        Formula::Or(_, _) => push_or(alloc, cnf, x, y),
        Formula::Implies(_, _) => push_implies(alloc, cnf, x, y),
        Formula::Iff(_, _) => push_iff(alloc, cnf, x, y),
        _ => {
            let n = next_number(cnf)?;
            push_variable(alloc, cnf, &[])?;
            Ok(n)
        }
    }
}
