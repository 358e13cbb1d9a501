//! Tables: worked joins.

ghost use Rattle.std.specs.Prelude.{◌≡◌};

use mcs_base::{Marks, Memory, Partial, Vars};
use mcs_table::{
    Row, Table, are_apart, forget, join, matching, projections_of, states_with, union_states,
};
use std::alloc::Global;

/// A row. The bits of the numbers are the variables that are true, and the marks.
#[tactic(auto, using(mcs_table::proofs::MarkLemmas::common_within))]
fn row(scope: Vars, values: u64, marks: u8) -> Row
    ensures { result.state.mask ≡ scope }
{
    let mut all = Marks::empty();
    for mark in 0..8 {
        if marks >> mark & 1 == 1 {
            all = all.with(mark);
        }
    }
    Row {
        state: Partial::new(scope, Vars::numbered(values).common(scope)),
        marks: all,
    }
}

/// A scope, and the values and marks of rows on it, all as bits of numbers.
type Listed = (u64, &'static [(u64, u8)]);

fn table(alloc: Global, (scope, rows): Listed) -> Result<Table, Memory> {
    let scope = Vars::numbered(scope);
    let mut all = Vec::new(alloc);
    for (values, marks) in rows {
        all.push(row(scope, *values, *marks))?;
    }
    Ok(Table::new(scope, all))
}

/// Whether these are the rows on the scope, in any order. No row is listed twice.
fn are_rows(found: &[Row], scope: Vars, rows: &[(u64, u8)]) -> bool {
    let mut same = found.len() == rows.len();
    for (values, marks) in rows {
        same = same && found.contains(&row(scope, *values, *marks));
    }
    same
}

/// Whether the table has this scope and these rows.
fn is_listed(found: &Table, (scope, rows): Listed) -> bool {
    let scope = Vars::numbered(scope);
    found.scope() == scope && are_rows(found.rows(), scope, rows)
}

/// What two tables give at a level.
#[derive(Clone, Copy)]
enum Given {
    /// Their join.
    Joined(Listed),
    /// The states of the unions of their rows with at most so many marks, as bits of numbers.
    States(&'static [u64]),
}

/// Whether the join has this scope and these rows, if the tables have no mark in common.
fn is_joined(
    alloc: Global,
    a: &Table,
    b: &Table,
    level: u32,
    wanted: Listed,
) -> Result<bool, Memory> {
    if are_apart(a, b) {
        let found = join(alloc, a, b, level)?;
        let is_listed = is_listed(&found, wanted);
        drop(found);
        Ok(is_listed)
    } else {
        Ok(false)
    }
}

/// Whether the states are those of these numbers.
fn are_states(found: &[Vars], states: &[u64]) -> bool {
    let mut same = found.len() == states.len();
    for (state, number) in found.iter().zip(states) {
        same = same && state.number() == *number;
    }
    same
}

/// Whether the unions have these states, if the tables have no mark in common.
fn have_states(
    alloc: Global,
    a: &Table,
    b: &Table,
    level: u32,
    states: &[u64],
) -> Result<bool, Memory> {
    if are_apart(a, b) {
        let found = union_states(alloc, a.rows(), a.scope(), b, level)?;
        Ok(are_states(&found, states))
    } else {
        Ok(false)
    }
}

/// Two tables, a level, and what they give at it.
type Pairing = (Listed, Listed, u32, Given);

/// Whether the two tables give this.
fn give(alloc: Global, a: &Table, b: &Table, level: u32, given: Given) -> bool {
    let given = match given {
        Given::Joined(wanted) => is_joined(alloc, a, b, level, wanted),
        Given::States(states) => have_states(alloc, a, b, level, states),
    };
    given == Ok(true)
}

/// The same of those that are listed so.
fn is_given(alloc: Global, (a, b, level, given): Pairing) -> bool {
    let (a, b) = (table(alloc, a), table(alloc, b));
    let is_right = match (&a, &b) {
        (Ok(a), Ok(b)) => give(alloc, a, b, level, given),
        _ => false,
    };
    drop((a, b));
    is_right
}

const MARKED: Listed = (0b1, &[(1, 0), (0, 0b1)]);

const OTHERWISE_MARKED: Listed = (0b1, &[(0, 0b100)]);

const BOTH_TRUE: Listed = (0b011, &[(0b11, 0b1)]);

const NEXT_TRUE: Listed = (0b110, &[(0b110, 0)]);

const ALL_TRUE: Listed = (0b111, &[(0b111, 0b1)]);

const ONCE: Listed = (0b1, &[(1, 0b1)]);

const TWICE: Listed = (0b1, &[(1, 0), (1, 0b10)]);

const LEFT: Listed = (0b011, &[(0b10, 0b1), (0b10, 0b11), (0, 0b10)]);

const RIGHT: Listed = (0b110, &[(0b110, 0), (0b110, 0b1000), (0b100, 0b100)]);

static PAIRINGS: [Pairing; 8] = [
    // A join takes the marks of both.
    (
        MARKED,
        OTHERWISE_MARKED,
        2,
        Given::Joined((0b1, &[(0, 0b101)])),
    ),
    (MARKED, OTHERWISE_MARKED, 1, Given::Joined((0b1, &[]))),
    // Rows fit on the variables of both.
    (BOTH_TRUE, NEXT_TRUE, 2, Given::Joined(ALL_TRUE)),
    (BOTH_TRUE, NEXT_TRUE, 1, Given::Joined(ALL_TRUE)),
    // States are those of few marks.
    (ONCE, TWICE, 1, Given::States(&[0b1])),
    (ONCE, TWICE, 0, Given::States(&[])),
    // Each state keeps its minimal rows.
    (
        LEFT,
        RIGHT,
        2,
        Given::Joined((0b111, &[(0b110, 0b1), (0b100, 0b110)])),
    ),
    (LEFT, RIGHT, 1, Given::Joined((0b111, &[(0b110, 0b1)]))),
];

#[test]
fn tables_are_joined(rt: HostRuntime) {
    for pairing in &PAIRINGS {
        assert!(rt; is_given(rt.alloc(), *pairing));
    }
}

/// Whether the row with these values and marks is the only one of the table that fits these values.
fn fits_alone(alloc: Global, of: Listed, values: u64, marks: u8) -> Result<bool, Memory> {
    let of = table(alloc, of)?;
    let state = row(of.scope(), values, marks).state;
    let found = matching(alloc, &of, &state);
    drop(of);
    Ok(are_rows(&found?, state.mask(), &[(values, marks)]))
}

#[test]
fn a_row_fits_its_own_state(rt: HostRuntime) {
    for (values, marks) in [(0, 0b1), (1, 0)] {
        assert!(rt; fits_alone(rt.alloc(), MARKED, values, marks) == Ok(true));
    }
}

/// Whether a table without the variables that are not of the other's scope is the other.
fn leaves(alloc: Global, of: Listed, wanted: Listed) -> Result<bool, Memory> {
    let of = table(alloc, of)?;
    let left = forget(alloc, &of, Vars::numbered(wanted.0));
    drop(of);
    let left = left?;
    let is_listed = is_listed(&left, wanted);
    drop(left);
    Ok(is_listed)
}

/// A table, and what is left of it without the variables that are not of the other's scope: the
/// minimal rows.
static LEFT_ROWS: [(Listed, Listed); 2] = [
    (
        (0b11, &[(0b01, 0b1), (0b11, 0b11), (0b11, 0b100), (0b10, 0)]),
        (0b1, &[(1, 0b1), (1, 0b100), (0, 0)]),
    ),
    // Only fewer marks cover.
    (
        (
            0b11,
            &[
                (0b10, 0b0011),
                (0b10, 0b0101),
                (0b10, 0b0110),
                (0b10, 0b1000),
                (0b10, 0b1001),
                (0b10, 0b0111),
                (0b10, 0b1110_0000),
                (0b01, 0b0010),
                (0b01, 0b0110),
                (0b01, 0b1001),
                (0b01, 0b0101),
            ],
        ),
        (
            0b11,
            &[
                (0b10, 0b1000),
                (0b10, 0b0011),
                (0b10, 0b0101),
                (0b10, 0b0110),
                (0b10, 0b1110_0000),
                (0b01, 0b0010),
                (0b01, 0b0101),
                (0b01, 0b1001),
            ],
        ),
    ),
];

#[test]
fn forgetting_keeps_minimal_rows(rt: HostRuntime) {
    for (of, wanted) in &LEFT_ROWS {
        assert!(rt; leaves(rt.alloc(), *of, *wanted) == Ok(true));
    }
}

/// Whether, of some states, those are kept that agree with a row, on two variables of which the
/// rows have one.
fn are_kept(alloc: Global) -> Result<bool, Memory> {
    let rows = table(alloc, (0b011, &[(0b01, 0), (0b11, 0b1), (0b11, 0b10)]))?;
    let set = Vars::numbered(0b110);
    let projections = projections_of(alloc, &rows, set);
    drop(rows);
    let projections = projections?;
    let states = [Vars::one(0), Vars::one(1), Vars::one(2)];
    let kept = states_with(alloc, &states, &projections, set)?;
    Ok(projections.len() == 2 && are_states(&kept, &[0b001, 0b010]))
}

#[test]
fn states_are_kept_that_a_row_agrees_with(rt: HostRuntime) {
    assert!(rt; are_kept(rt.alloc()) == Ok(true));
}
