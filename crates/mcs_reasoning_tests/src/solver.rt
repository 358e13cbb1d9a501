//! A solver in parts: what unit clauses lead to, and what is learnt from a conflict.

ghost use Rattle.std.specs.Prelude.{◌≡◌, ◌≤◌, ◌<◌, length, unsigned_abs, IfOk, IfSome, IsTrue};
ghost use Rattle.std.specs.List.{AllByRecursion};
ghost use Rattle.mcs_trace.specs.Clauses.{IsLiteral};
ghost use Rattle.mcs_sat.specs.Solvers.{HasNoValue, IsFalseNumber, IsOpenUnder};
ghost use Rattle.mcs_sat.specs.Solvers.{last_level, trues, trues_below};

use crate::searches::list;
use mcs_base::Memory;
use mcs_sat::Solver;
use mcs_trace::is_literal;
use std::alloc::Global;

/// Whether the literals have these values.
fn have_values(solver: &Solver, vars: u64, values: &[(i64, Option<bool>)]) -> bool
    requires { vars ≡ solver.now.vars }
{
    for (literal, value) in values {
        if !is_literal(*literal)
            || literal.unsigned_abs() > vars
            || solver.value(*literal) != *value
        {
            return false;
        }
    }
    true
}

/// Whether the literal can be decided: its variable is one of the solver's, and has no value.
fn is_free(solver: &Solver, vars: u64, literal: i64) -> bool
    requires { vars ≡ solver.now.vars }
    ensures { IsTrue result
        → IsLiteral literal × (unsigned_abs literal ≤ solver.now.vars)
        × HasNoValue (trues solver.now) literal }
{
    is_literal(literal) && literal.unsigned_abs() <= vars && solver.value(literal).is_none()
}

/// Decides the literal, where it can be decided.
fn decide(solver: &mut Solver, vars: u64, literal: i64) -> Result<(), Memory>
    requires { vars ≡ solver.old.vars }
    ensures { solver.new.vars ≡ solver.old.vars }
{
    if is_free(solver, vars, literal) {
        solver.decide(literal)
    } else {
        Ok(())
    }
}

/// Clauses, and decisions that are made before anything is propagated.
struct Run {
    vars: u32,
    clauses: &'static [&'static [i64]],
    decisions: &'static [i64],
    /// The clauses of which one is found to be false; none where there is no conflict.
    conflicts: &'static [u64],
    values: &'static [(i64, Option<bool>)],
}

/// Whether the decisions lead to what the run says.
fn is_run(solver: &mut Solver, vars: u64, run: &Run) -> Result<bool, Memory>
    requires { vars ≡ solver.old.vars }
{
    for literal in run.decisions {
        decide(solver, vars, *literal)?;
    }
    let is_found = match solver.propagate()? {
        Some(number) => run.conflicts.contains(&number),
        None => run.conflicts.is_empty(),
    };
    Ok(is_found && have_values(solver, vars, run.values))
}

static RUNS: [Run; 5] = [
    // A chain of unit clauses.
    Run {
        vars: 3,
        clauses: &[&[1], &[-1, 2], &[-2, 3]],
        decisions: &[],
        conflicts: &[],
        values: &[(1, Some(true)), (2, Some(true)), (-3, Some(false))],
    },
    // Two unit clauses that contradict one another.
    Run {
        vars: 1,
        clauses: &[&[1], &[-1]],
        decisions: &[],
        conflicts: &[1, 2],
        values: &[],
    },
    // The empty clause.
    Run {
        vars: 0,
        clauses: &[&[]],
        decisions: &[],
        conflicts: &[1],
        values: &[],
    },
    // A decision that makes two clauses units.
    Run {
        vars: 2,
        clauses: &[&[1, 2], &[-1, 2]],
        decisions: &[-2],
        conflicts: &[1, 2],
        values: &[(2, Some(false))],
    },
    // Two decisions, the first of which leads to a conflict.
    Run {
        vars: 4,
        clauses: &[&[-1, 2], &[-1, 3], &[-2, -3]],
        decisions: &[1, 4],
        conflicts: &[1, 2, 3],
        values: &[(1, Some(true)), (4, Some(true))],
    },
];

#[test]
fn unit_clauses_are_followed(rt: HostRuntime) {
    for run in &RUNS {
        assert!(rt; does(rt.alloc(), run.vars, run.clauses, &Deed::Run(run)));
    }
}

/// Clauses, and decisions that are made one by one, each when what was before it is propagated. The
/// last leads to a conflict.
struct Lesson {
    vars: u32,
    clauses: &'static [&'static [i64]],
    decisions: &'static [i64],
    /// What is learnt from it, and under which number.
    number: u64,
    learnt: &'static [i64],
    /// Values when it is learnt, and when that is propagated.
    before: &'static [(i64, Option<bool>)],
    after: &'static [(i64, Option<bool>)],
}

/// A clause that is false once the literal is decided, where all is propagated before.
fn conflict_of(solver: &mut Solver, vars: u64, literal: i64) -> Result<Option<u64>, Memory>
    requires { vars ≡ solver.old.vars }
    ensures vars { solver.new.vars ≡ solver.old.vars }
    ensures conflict { IfOk result (λ found. IfSome found (IsFalseNumber solver.new)) }
    ensures level { IfOk result (λ found. IfSome found (λ _. 1 < length solver.new.levels)) }
    ensures before { IfOk result (λ found. IfSome found (λ _. AllByRecursion (IsOpenUnder
        (trues_below solver.new.levels (last_level solver.new))) solver.new.clauses)) }
{
    if solver.propagate()?.is_some() || !is_free(solver, vars, literal) {
        return Ok(None);
    }
    solver.decide(literal)?;
    solver.propagate()
}

/// Whether the lesson's clause is learnt, where the decision of the literal leads to a conflict.
fn learn(
    solver: &mut Solver,
    vars: u64,
    literal: i64,
    lesson: &Lesson,
) -> Result<Option<bool>, Memory>
    requires { vars ≡ solver.old.vars }
    ensures { solver.new.vars ≡ solver.old.vars }
{
    let Some(conflict) = conflict_of(solver, vars, literal)? else {
        return Ok(None);
    };
    let step = solver.analyse(conflict)?;
    let is_right = step.clause.literals() == lesson.learnt;
    let number = solver.learn(&step);
    drop(step);
    Ok(Some(number? == lesson.number && is_right))
}

/// Whether just the last decision leads to a conflict, from which the lesson's clause is learnt.
fn is_learnt(solver: &mut Solver, vars: u64, lesson: &Lesson) -> Result<bool, Memory>
    requires { vars ≡ solver.old.vars }
    ensures { solver.new.vars ≡ solver.old.vars }
{
    for (index, literal) in lesson.decisions.iter().enumerate() {
        if let Some(is_right) = learn(solver, vars, *literal, lesson)? {
            return Ok(is_right && index + 1 == lesson.decisions.len());
        }
    }
    Ok(false)
}

/// Whether the lesson's clause is learnt, and leads to what it says.
fn is_lesson(solver: &mut Solver, vars: u64, lesson: &Lesson) -> Result<bool, Memory>
    requires { vars ≡ solver.old.vars }
{
    let is_right = is_learnt(solver, vars, lesson)? && have_values(solver, vars, lesson.before);
    let is_open = solver.propagate()?.is_none();
    Ok(is_right && is_open && have_values(solver, vars, lesson.after))
}

/// What a solver is to do.
#[derive(Drop)]
enum Deed {
    Run(&'static Run),
    Lesson(&'static Lesson),
}

/// Whether a solver of the clauses does this.
fn does(alloc: Global, vars: u32, clauses: &[&[i64]], deed: &Deed) -> bool {
    let Some(cnf) = list(alloc, vars, clauses) else {
        return false;
    };
    let vars = cnf.vars();
    let solver = Solver::new(alloc, &cnf);
    drop(cnf);
    let Ok(mut solver) = solver else {
        return false;
    };
    let is_right = match deed {
        Deed::Run(run) => is_run(&mut solver, vars, run),
        Deed::Lesson(lesson) => is_lesson(&mut solver, vars, lesson),
    };
    drop(solver);
    is_right == Ok(true)
}

static LESSONS: [Lesson; 3] = [
    // A unit clause is learnt.
    Lesson {
        vars: 2,
        clauses: &[&[1, 2], &[-1, 2]],
        decisions: &[-2],
        number: 3,
        learnt: &[2],
        before: &[(1, None), (2, None)],
        after: &[(1, None), (2, Some(true))],
    },
    // The last level goes.
    Lesson {
        vars: 4,
        clauses: &[&[-1, 2], &[-3, -4], &[-2, -3, 4]],
        decisions: &[1, 3],
        number: 4,
        learnt: &[-2, -3],
        before: &[(1, Some(true)), (2, Some(true)), (3, None), (4, None)],
        after: &[
            (1, Some(true)),
            (2, Some(true)),
            (3, Some(false)),
            (4, None),
        ],
    },
    // Two levels go.
    Lesson {
        vars: 5,
        clauses: &[&[-1, 2], &[-3, -4], &[-2, -3, 4]],
        decisions: &[1, 5, 3],
        number: 4,
        learnt: &[-2, -3],
        before: &[(2, Some(true)), (3, None), (5, None)],
        after: &[(2, Some(true)), (3, Some(false)), (5, None)],
    },
];

#[test]
fn clauses_are_learnt_from_conflicts(rt: HostRuntime) {
    for lesson in &LESSONS {
        assert!(rt;
            does(
                rt.alloc(),
                lesson.vars,
                lesson.clauses,
                &Deed::Lesson(lesson)
            )
        );
    }
}
