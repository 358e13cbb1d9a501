//! Whether a trace is accepted.

ghost use Rattle.std.specs.Prelude.{◌≡◌, ◌++◌, ◌↔◌, map, IsTrue, IfOk};
ghost use Rattle.std.specs.Option.{option_copied};
ghost use Rattle.mcs_trace.specs.Clauses.{IsClause, IsUnsatisfiable};
ghost use Rattle.mcs_trace.specs.Traces.{numbered_clause, ResolvesTo, IsChainResolvent};
ghost use Rattle.mcs_trace.specs.Traces.{AreRightSteps, EndsEmpty, IsAcceptedTrace, inference_of};
ghost use Rattle.mcs_trace.specs.Traces.{clauses_of, inferences_of};

use crate::clause::Clause;
use crate::cnf::Cnf;
use crate::resolvent::resolve;
use crate::trace::{Step, Trace};
use mcs_base::Memory;
use std::alloc::Global;
use std::mem;

/// The clause with this number, counted from 1, or `None` if no clause has it. The clauses of the
/// list come first, then those of the steps.
pub fn numbered<'a>(clauses: &'a [Clause], steps: &'a [Step], number: u64) -> Option<&'a Clause>
    ensures { option_copied result ≡ numbered_clause (clauses.now ++ clauses_of steps.now) number }
{
    if number == 0 {
        return None;
    }
    let index = (number - 1) as usize;
    if index < clauses.len() {
        return Some(&clauses[index]);
    }
    let later = index - clauses.len();
    if later < steps.len() {
        return Some(&steps[later].clause);
    }
    None
}

/// Whether the clause in `current`, resolved in turn with the clauses with these numbers, yields
/// `last`. The buffers are overwritten.
fn resolves_to(
    clauses: &[Clause],
    steps: &[Step],
    numbers: &[u64],
    current: &mut Vec<i64>,
    spare: &mut Vec<i64>,
    last: &[i64],
) -> Result<bool, Memory>
    requires { IsClause current.old.items }
    ensures { IfOk result
        (λ yes. IsTrue yes ↔ ResolvesTo (clauses.now ++ clauses_of steps.now) current.old.items
        numbers.now last.now) }
{
    for number in numbers {
        let Some(next) = numbered(clauses, steps, *number) else {
            return Ok(false);
        };
        if !resolve(current, next.literals(), spare)? {
            return Ok(false);
        }
        mem::swap(current, spare);
    }
    Ok(current.as_slice() == last)
}

/// Whether the clause of the step is the resolvent of its chain. The buffers are overwritten.
fn is_right(
    clauses: &[Clause],
    steps: &[Step],
    step: &Step,
    current: &mut Vec<i64>,
    spare: &mut Vec<i64>,
) -> Result<bool, Memory>
    ensures { IfOk result
        (λ yes. IsTrue yes ↔ IsChainResolvent (clauses.now ++ clauses_of steps.now)
        step.now.chain.items step.now.clause) }
{
    let Some((number, numbers)) = step.chain.split_first() else {
        return Ok(false);
    };
    let Some(first) = numbered(clauses, steps, *number) else {
        return Ok(false);
    };
    current.clear();
    current.extend_from_slice(first.literals())?;
    resolves_to(
        clauses,
        steps,
        numbers,
        current,
        spare,
        step.clause.literals(),
    )
}

/// Whether the clause of each step is the resolvent of its chain.
fn are_right(alloc: Global, clauses: &[Clause], steps: &[Step]) -> Result<bool, Memory>
    ensures { IfOk result (λ yes. IsTrue yes
        ↔ AreRightSteps clauses.now (map inference_of steps.now)) }
{
    let mut current = Vec::new(alloc);
    let mut spare = Vec::new(alloc);
    for (index, step) in steps.iter().enumerate() {
        if !is_right(clauses, &steps[..index], step, &mut current, &mut spare)? {
            return Ok(false);
        }
    }
    Ok(true)
}

/// Whether there is a last step and its clause is empty.
fn ends_empty(steps: &[Step]) -> bool
    ensures { IsTrue result ↔ EndsEmpty (map inference_of steps.now) }
{
    match steps.last() {
        Some(step) => step.clause.is_empty(),
        None => false,
    }
}

/// Whether the clause of each step is the resolvent of its chain, and that of the last step is
/// empty. Time and memory are linear in the sizes of the clauses that the chains name.
pub fn check(alloc: Global, cnf: &Cnf, trace: &Trace) -> Result<bool, Memory>
    ensures accepted { IfOk result (λ yes. IsTrue yes
        ↔ IsAcceptedTrace cnf.now.clauses (inferences_of trace.now)) }
    ensures refutes { IfOk result (λ yes. IsTrue yes → IsUnsatisfiable cnf.now.clauses) }
{
    if !ends_empty(&trace.steps) {
        return Ok(false);
    }
    are_right(alloc, cnf.clauses(), &trace.steps)
}
