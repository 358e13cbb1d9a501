//! Traces in lines, judged as they are read.

ghost use Rattle.std.specs.Prelude.{◌≡◌, ◌↔◌, None, is_some, IsTrue, IfOk, MatchOption};
ghost use Rattle.std.specs.List.{AllByRecursion};
ghost use Rattle.mcs_trace.specs.Clauses.{IsClause};
ghost use Rattle.mcs_trace.specs.Traces.{Inference, IsAcceptedTrace};
ghost use Rattle.mcs_spelling.specs.Words.{step_of};
ghost use Rattle.mcs_proof_lines.specs.Walks.{line_at, trace_at};
ghost use Rattle.mcs_steps.specs.Lines.{Spells};
ghost use Rattle.mcs_steps.specs.Judging.{IsJudgedOn, AreStepsJudged, Judges, PassesBy, IsNextStep};

use crate::line::{StepLine, split_step};
use crate::step::judge_step;
use mcs_base::{Memory, Rows};
use mcs_proof_lines::{Lines, ReportFault, out_of_place};
use mcs_trace::{Clause, Cnf};
use std::alloc::Global;

/// What is told of steps: whether each is right, and whether there is a last one and its clause is
/// empty.
#[derive(Clone, Copy)]
struct Judged {
    are_right: bool,
    ends_empty: bool,
}

/// The parts of the next line, if it is a step.
fn next_step<'b>(lines: &Lines<'b>) -> Option<StepLine<'b>>
    ensures { MatchOption result (line_at step_of lines.now ≡ None) (IsNextStep lines.now) }
{
    split_step(lines.current()?)
}

/// Whether the next line is a step.
fn is_step_next(lines: &Lines<'_>) -> bool
    ensures { result ≡ is_some (line_at step_of lines.now) }
{
    match next_step(lines) {
        Some(_) => true,
        None => false,
    }
}

/// Whether a trace of these steps is accepted.
fn is_accepted(judged: Judged) -> bool
    ensures { IsTrue result ↔ (IsTrue judged.are_right × IsTrue judged.ends_empty) }
{
    judged.are_right && judged.ends_empty
}

/// What is told after one step more. A step is not looked at where one before it is not right.
fn judge_next(
    clauses: &[Clause],
    derived: &mut Rows<i64>,
    step: StepLine<'_>,
    current: &mut Vec<i64>,
    spare: &mut Vec<i64>,
    judged: Judged,
) -> Result<Judged, Memory>
    requires { AllByRecursion IsClause derived.old }
    ensures { IfOk result (λ now. (s : Inference) → Spells step.entry s
        → IsJudgedOn clauses.now derived.old derived.new s judged now) }
{
    let ends_empty = step.literals.is_empty();
    if !judged.are_right {
        return Ok(Judged {
            are_right: false,
            ends_empty,
        });
    }
    let are_right = judge_step(clauses, derived, step, current, spare)?;
    Ok(Judged {
        are_right,
        ends_empty,
    })
}

/// Judges the steps that are next. Each has to be the resolvent of clauses of the list and of steps
/// before it.
fn judge_steps(alloc: Global, clauses: &[Clause], lines: &mut Lines<'_>) -> Result<Judged, Memory>
    ensures { IfOk result (AreStepsJudged clauses.now lines.old lines.new) }
{
    let mut derived = Rows::new(alloc);
    let mut current = Vec::new(alloc);
    let mut spare = Vec::new(alloc);
    let mut judged = Judged {
        are_right: true,
        ends_empty: false,
    };
    while let Some(step) = next_step(lines) {
        judged = judge_next(
            clauses,
            &mut derived,
            step,
            &mut current,
            &mut spare,
            judged,
        )?;
        lines.advance();
    }
    Ok(judged)
}

/// Reads a trace, as `take_trace` does, and returns whether it is accepted as refuting the clauses:
/// whether each step is the resolvent of clauses of the list and of steps before it, and the last
/// one is empty. It is judged step by step: of the steps nothing is held but their clauses.
#[tactic(auto, unfolding(mcs_proof_lines::specs::Walks::trace_at))]
pub fn judge_trace(alloc: Global, known: &Cnf, lines: &mut Lines<'_>) -> Result<bool, ReportFault>
    ensures { Judges (IsAcceptedTrace known.now.clauses) result lines.new (trace_at lines.old) }
{
    if !is_step_next(lines) {
        return Err(out_of_place(lines));
    }
    let judged = judge_steps(alloc, known.clauses(), lines)?;
    Ok(is_accepted(judged))
}

/// Reads a trace, as `take_trace` does, and keeps nothing of it. No memory is needed.
#[tactic(auto, unfolding(mcs_proof_lines::specs::Walks::trace_at))]
pub fn pass_trace(lines: &mut Lines<'_>) -> Result<(), ReportFault>
    ensures { PassesBy result lines.new (trace_at lines.old) }
{
    if !is_step_next(lines) {
        return Err(out_of_place(lines));
    }
    while is_step_next(lines) {
        lines.advance();
    }
    Ok(())
}
