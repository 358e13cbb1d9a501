//! Semi-joins, and what answers supply.

ghost use Rattle.std.specs.Prelude.{◌≡◌};

use crate::numbered::are_numbered;
use mcs_base::{Active, Marks, Memory, Partial, Vars};
use mcs_rows::{Answer, supplies};
use mcs_table::{Row, Table, are_apart, semi_join};
use std::alloc::Global;
use std::test::Fail;

/// A row. The variables of the scope that are not among the values are false.
#[tactic(auto, using(mcs_table::proofs::MarkLemmas::common_within))]
fn row(scope: Vars, values: Vars, marks: Marks) -> Row
    ensures { result.state.mask ≡ scope }
{
    Row {
        state: Partial::new(scope, values.common(scope)),
        marks,
    }
}

/// The semi-join of two tables, where they have no mark in common.
fn semi_joined(alloc: Global, a: &Table, b: &Table, level: u32) -> Result<Option<Table>, Memory> {
    if are_apart(a, b) {
        Ok(Some(semi_join(alloc, a, b, level)?))
    } else {
        Ok(None)
    }
}

/// Whether these rows are left of the first table where it meets the second.
fn are_left(alloc: Global, a: &Table, b: &Table, level: u32, rows: &[Row]) -> Result<bool, Memory> {
    match semi_joined(alloc, a, b, level)? {
        Some(left) => Ok(left.rows() == rows),
        None => Ok(false),
    }
}

/// Whether a table on one variable, in which it is true without a mark and false with one, is met
/// by one in which it is false with another mark: two marks leave the row in which it is false, and
/// one mark leaves none.
fn are_semi_joined(alloc: Global, scope: Vars) -> Result<bool, Memory> {
    let (on, off) = (
        row(scope, scope, Marks::empty()),
        row(scope, Vars::empty(), Marks::one(0)),
    );
    let other = row(scope, Vars::empty(), Marks::one(2));
    let a = Table::new(scope, [on, off].to_vec(alloc)?);
    let b = Table::new(scope, [other].to_vec(alloc)?);
    let by_two = are_left(alloc, &a, &b, 2, &[off]);
    let by_one = are_left(alloc, &a, &b, 1, &[]);
    drop(a);
    drop(b);
    Ok(by_two? && by_one?)
}

#[test]
fn semi_joins_keep_rows_with_partners(rt: HostRuntime) {
    assert!(rt; are_semi_joined(rt.alloc(), Vars::one(0)) == Ok(true));
}

/// The answer that these parts are accepted with the rules.
fn answer(alloc: Global, active: Active, parts: &[Vars]) -> Result<Answer, Memory> {
    Ok(Answer {
        active,
        parts: parts.to_vec(alloc)?,
    })
}

/// What is supplied where the empty part is accepted with no rule, and with the first rule that and
/// another one.
fn supplied(alloc: Global, other: Vars) -> Result<Vec<Vars>, Memory> {
    let mut answers = Vec::new(alloc);
    answers.push(answer(alloc, Active::empty(), &[Vars::empty()])?)?;
    answers.push(answer(alloc, Active::one(0), &[other, Vars::empty()])?)?;
    supplies(alloc, &answers)
}

#[test]
fn answers_supply_their_parts(rt: HostRuntime) -> Result<(), Fail> {
    let supplied = supplied(rt.alloc(), Vars::one(0))?;
    let are_right = are_numbered(&supplied, &[1, 0]);
    drop(supplied);
    assert!(rt; are_right);
    Ok(())
}
