//! Many questions over one list of clauses.

ghost use Rattle.std.specs.Prelude.{◌≡◌, []};

use crate::searches::{list, push_all};
use mcs_base::Memory;
use mcs_sat::{ClauseBase, Outcome};
use mcs_trace::{Cnf, check};
use std::alloc::Global;

/// Whether a search with a trace tells this of the base's clauses, which are those of the list. A
/// trace is accepted.
fn is_shown(alloc: Global, base: &mut ClauseBase, whole: &Cnf, wanted: bool) -> bool
    ensures { base.new ≡ base.old }
{
    match base.solve() {
        Ok(Outcome::Model(_values)) => wanted,
        Ok(Outcome::Refuted(trace)) => {
            let is_right = check(alloc, whole, &trace);
            drop(trace);
            is_right == Ok(true) && !wanted
        }
        Err(_) => false,
    }
}

/// Whether a search without a trace tells this of the base's clauses.
fn is_found(base: &mut ClauseBase, wanted: bool) -> bool
    ensures { base.new ≡ base.old }
{
    match base.satisfy() {
        Ok(values) => values.is_some() == wanted,
        Err(_) => false,
    }
}

/// Whether a search with a trace and one without tell this of the base's clauses with some more,
/// which are taken off again.
fn are_told(alloc: Global, base: &mut ClauseBase, more: &Cnf, whole: &Cnf, wanted: bool) -> bool {
    let (vars, count) = (base.vars(), base.count());
    if more.vars() < vars || base.append(more).is_err() {
        return false;
    }
    let is_right = is_shown(alloc, base, whole, wanted) && is_found(base, wanted);
    base.cut(vars, count);
    is_right
}

/// Clauses over the variables 1 to `vars`, and clauses that are added to them, with one variable
/// more, and whether they then have an assignment.
struct Asked {
    vars: u8,
    front: &'static [&'static [i64]],
    questions: &'static [(&'static [&'static [i64]], bool)],
}

/// 1, 2 or 3; 1 implies 2; 2 implies 3.
static ORDERED: Asked = Asked {
    vars: 3,
    front: &[&[1, 2, 3], &[-1, 2], &[-2, 3]],
    questions: &[
        (&[&[-3]], false),
        (&[&[-2]], true),
        (&[&[-2, -3], &[2]], false),
        (&[&[3, 4], &[-4]], true),
        (&[&[-1, -3], &[1, 4], &[-4]], false),
        (&[&[1], &[]], false),
        (&[&[-3, -4], &[4]], false),
        (&[], true),
        (&[&[-3]], false),
    ],
};

/// 1 or 2, which 3 stands for; and not both: 4 stands for both, and 5 for its denial.
static EITHER: Asked = Asked {
    vars: 5,
    front: &[
        &[-1, 3],
        &[-2, 3],
        &[1, 2, -3],
        &[3],
        &[1, -4],
        &[2, -4],
        &[-1, -2, 4],
        &[-4, -5],
        &[4, 5],
        &[5],
    ],
    questions: &[
        (&[], true),
        (&[&[-1], &[-2]], false),
        (&[&[1], &[2]], false),
        (&[&[1]], true),
        (&[&[-1]], true),
        (&[&[1, -2], &[-1, 2]], false),
        (&[&[-1, -2], &[1, 6], &[2, 6]], true),
        (&[&[1, -6], &[2, -6], &[6]], false),
        (&[&[-3]], false),
        (&[&[4, -5]], false),
        (&[], true),
    ],
};

/// 1 exactly where 2, 3 or 4: 5 stands for 3 or 4, 6 for 2 or 5, and 7 for the whole.
static DEFINED: Asked = Asked {
    vars: 7,
    front: &[
        &[-3, 5],
        &[-4, 5],
        &[3, 4, -5],
        &[-2, 6],
        &[-5, 6],
        &[2, 5, -6],
        &[1, 6, 7],
        &[-1, -6, 7],
        &[-1, 6, -7],
        &[1, -6, -7],
        &[7],
    ],
    questions: &[
        (&[], true),
        (&[&[1]], true),
        (&[&[1], &[-2], &[-3]], true),
        (&[&[1], &[-2], &[-3], &[-4]], false),
        (&[&[-1]], true),
        (&[&[-1], &[4]], false),
        (&[&[-1], &[2, 8], &[-8]], false),
        (&[&[5], &[-6]], false),
        (&[&[-7]], false),
    ],
};

/// The first clauses, and more.
fn front_and(alloc: Global, asked: &Asked, more: &[&[i64]]) -> Option<Cnf> {
    let mut whole = list(alloc, u32::from(asked.vars) + 1, asked.front)?;
    push_all(alloc, &mut whole, more)?;
    Some(whole)
}

/// Whether the base's clauses, which are the first ones, have an assignment with some more exactly
/// where it is said.
fn is_answered(
    alloc: Global,
    base: &mut ClauseBase,
    asked: &Asked,
    more: &[&[i64]],
    wanted: bool,
) -> bool {
    let own = list(alloc, u32::from(asked.vars) + 1, more);
    let whole = front_and(alloc, asked, more);
    let is_right = match (&own, &whole) {
        (Some(own), Some(whole)) => are_told(alloc, base, own, whole, wanted),
        _ => false,
    };
    drop((own, whole));
    is_right
}

/// Whether the base has so many variables and clauses.
fn has(base: &ClauseBase, vars: u64, count: usize) -> bool {
    base.vars() == vars && base.count() == count
}

/// Whether the base of the first clauses answers each question, and then has these clauses alone.
fn are_answered(alloc: Global, base: &mut ClauseBase, asked: &Asked) -> bool {
    let mut are_right = true;
    for (more, wanted) in asked.questions {
        are_right &= is_answered(alloc, base, asked, more, *wanted);
    }
    are_right && has(base, u64::from(asked.vars), asked.front.len())
}

/// A base of the first clauses.
fn front(alloc: Global, asked: &Asked) -> Option<ClauseBase> {
    let front = list(alloc, u32::from(asked.vars), asked.front)?;
    let base = ClauseBase::of(alloc, &front);
    drop(front);
    base.ok()
}

/// Whether the base answers each question before it is settled and then.
fn are_answered_twice(alloc: Global, base: &mut ClauseBase, asked: &Asked) -> bool {
    are_answered(alloc, base, asked) && base.settle().is_ok() && are_answered(alloc, base, asked)
}

/// Whether a base of the clauses answers each question, and once it is settled too.
fn is_right(alloc: Global, asked: &Asked) -> bool {
    let Some(mut base) = front(alloc, asked) else {
        return false;
    };
    let is_right = are_answered_twice(alloc, &mut base, asked);
    drop(base);
    is_right
}

#[test]
fn each_question_is_answered_as_if_it_were_the_only_one(rt: HostRuntime) {
    let alloc = rt.alloc();
    let are_right = is_right(alloc, &ORDERED)
        && is_right(alloc, &EITHER)
        && is_right(alloc, &DEFINED);
    assert!(rt; are_right);
}

/// All disjunctions of 1, 2 and 3, each as it is or denied.
static DISJUNCTIONS: [[i8; 3]; 8] = [
    [1, 2, 3],
    [1, 2, -3],
    [1, -2, 3],
    [1, -2, -3],
    [-1, 2, 3],
    [-1, 2, -3],
    [-1, -2, 3],
    [-1, -2, -3],
];

/// Adds what says that the disjunction is true, where the variable of the number stands for the
/// last two, and the next one for the whole.
fn push_disjunction(alloc: Global, whole: &mut Cnf, literals: [i8; 3], number: u8) -> Option<()> {
    let [first, second, third] = literals;
    let (first, second, third) = (i64::from(first), i64::from(second), i64::from(third));
    let (last_two, all) = (i64::from(number), i64::from(number) + 1);
    push_all(
        alloc,
        whole,
        &[
            &[-second, last_two],
            &[-third, last_two],
            &[second, third, -last_two],
            &[-first, all],
            &[-last_two, all],
            &[first, last_two, -all],
            &[all],
        ],
    )
}

/// What says that the first ones of the disjunctions are true.
fn disjunctions(alloc: Global, count: usize) -> Option<Cnf> {
    let mut whole = list(alloc, 19, &[])?;
    let mut number = 4;
    for literals in DISJUNCTIONS.iter().take(count) {
        push_disjunction(alloc, &mut whole, *literals, number)?;
        number = number.saturating_add(2);
    }
    Some(whole)
}

/// Whether the base, once it is settled, has an assignment exactly where it is said. Its clauses
/// are those of the list.
fn is_settled_rightly(
    alloc: Global,
    base: &mut ClauseBase,
    whole: &Cnf,
    wanted: bool,
) -> Result<bool, Memory> {
    base.settle()?;
    Ok(is_shown(alloc, base, whole, wanted) && is_found(base, wanted))
}

/// Whether a settled base of the clauses has an assignment exactly where it is said.
fn are_satisfied(alloc: Global, whole: &Cnf, wanted: bool) -> Result<bool, Memory> {
    let mut base = ClauseBase::of(alloc, whole)?;
    let is_right = is_settled_rightly(alloc, &mut base, whole, wanted);
    drop(base);
    is_right
}

/// Whether the first ones of the disjunctions have an assignment exactly where they are not all.
fn are_disjunctions_told(alloc: Global, count: usize) -> bool {
    let Some(whole) = disjunctions(alloc, count) else {
        return false;
    };
    let is_right = are_satisfied(alloc, &whole, count < DISJUNCTIONS.len());
    drop(whole);
    is_right == Ok(true)
}

#[test]
fn disjunctions_have_a_model_until_all_are_there(rt: HostRuntime) {
    for count in 0..=DISJUNCTIONS.len() {
        assert!(rt; are_disjunctions_told(rt.alloc(), count));
    }
}

/// Whether the settled base of `EITHER`, cut down to what 3 stands for, has assignments in which 3
/// is false.
fn is_cut(base: &mut ClauseBase) -> Result<bool, Memory> {
    base.settle()?;
    let vars = base.vars();
    if vars < 3 {
        return Ok(false);
    }
    base.cut(vars, 3);
    base.add(&[-3])?;
    let is_denied = is_found(base, true);
    base.add(&[1])?;
    Ok(is_denied && is_found(base, false) && has(base, 5, 5))
}

/// The same with this base.
fn is_either_cut(alloc: Global) -> bool {
    let Some(mut base) = front(alloc, &EITHER) else {
        return false;
    };
    let is_cut = is_cut(&mut base);
    drop(base);
    is_cut == Ok(true)
}

#[test]
fn a_settled_base_is_cut(rt: HostRuntime) {
    assert!(rt; is_either_cut(rt.alloc()));
}

/// Whether the base has one variable and so many clauses, which have an assignment exactly where it
/// is said.
fn is_told(base: &mut ClauseBase, count: usize, wanted: bool) -> bool
    ensures { base.new ≡ base.old }
{
    is_found(base, wanted) && has(base, 1, count)
}

/// Whether a base without variables and clauses is told rightly as a variable, the clause that it
/// is true and the one that it is false are added, and the last is taken off again.
fn is_told_as_it_grows(base: &mut ClauseBase) -> Result<bool, Memory>
    requires { base.old ≡ record { vars = 0; clauses = [] } }
{
    let number = base.add_variable()?;
    base.add(&[1])?;
    let is_first_right = is_told(base, 1, true);
    base.add(&[-1])?;
    let is_second_right = is_told(base, 2, false);
    base.cut(1, 1);
    Ok(is_told(base, 1, true) && number == 1 && is_first_right && is_second_right)
}

/// The same with such a base.
fn is_new_told(alloc: Global) -> Result<bool, Memory> {
    let mut base = ClauseBase::new(alloc, 0)?;
    let is_right = is_told_as_it_grows(&mut base);
    drop(base);
    is_right
}

#[test]
fn variables_and_clauses_are_added(rt: HostRuntime) {
    assert!(rt; is_new_told(rt.alloc()) == Ok(true));
}
