//! Whether a step is right.

ghost use Rattle.std.specs.Prelude.{◌≡◌, ◌++◌, ◌↔◌, ℕ, ℤ, List, Some, IsTrue, IfOk};
ghost use Rattle.std.specs.List.{AllByRecursion};
ghost use Rattle.mcs_trace.specs.Clauses.{IsClause};
ghost use Rattle.mcs_trace.specs.Traces.{Inference};
ghost use Rattle.mcs_spelling.specs.Words.{numbers_of, literals_of_bytes};
ghost use Rattle.mcs_steps.specs.Words.{spaced_numbers};
ghost use Rattle.mcs_steps.specs.Lines.{Spells};
ghost use Rattle.mcs_steps.specs.Judging.{IsResolved, IsDerived, IsStepJudged};

use crate::derived::numbered;
use crate::line::StepLine;
use crate::words::{first_literal, first_number};
use mcs_base::{Memory, Rows};
use mcs_trace::{Clause, resolve};
use std::mem;

/// Resolves the clause in `current` in turn with the clauses whose numbers the bytes spell, each
/// after a space. Returns whether this can be done; `current` is then the last resolvent. The
/// buffers are overwritten.
fn resolve_all(
    clauses: &[Clause],
    derived: &Rows<i64>,
    numbers: &[u8],
    current: &mut Vec<i64>,
    spare: &mut Vec<i64>,
) -> Result<bool, Memory>
    requires current { IsClause current.old.items }
    requires derived { AllByRecursion IsClause derived.now }
    ensures { IfOk result (λ yes. (ns : List ℕ) → spaced_numbers numbers.now ≡ Some ns
        → IsResolved (clauses.now ++ derived.now) current.old.items ns yes current.new.items) }
{
    let mut left = numbers;
    while !left.is_empty() {
        let Some((number, rest)) = first_number(&left[1..]) else {
            return Ok(false);
        };
        let Some(next) = numbered(clauses, derived, number) else {
            return Ok(false);
        };
        if !resolve(current, next, spare)? {
            return Ok(false);
        }
        mem::swap(current, spare);
        left = rest;
    }
    Ok(true)
}

/// Resolves the clauses in turn whose numbers the chain spells. Returns whether this can be done;
/// `current` is then the last resolvent. The buffers are overwritten.
fn derive(
    clauses: &[Clause],
    derived: &Rows<i64>,
    chain: &[u8],
    current: &mut Vec<i64>,
    spare: &mut Vec<i64>,
) -> Result<bool, Memory>
    requires { AllByRecursion IsClause derived.now }
    ensures { IfOk result (λ yes. (ns : List ℕ) → numbers_of chain.now ≡ Some ns
        → IsDerived (clauses.now ++ derived.now) ns yes current.new.items) }
{
    let Some((number, rest)) = first_number(chain) else {
        return Ok(false);
    };
    let Some(first) = numbered(clauses, derived, number) else {
        return Ok(false);
    };
    current.clear();
    current.extend_from_slice(first)?;
    resolve_all(clauses, derived, rest, current, spare)
}

/// Whether the bytes spell these literals, each with a space after it.
fn are_spelled(literals: &[i64], bytes: &[u8]) -> bool
    ensures { IsTrue result ↔ (literals_of_bytes bytes.now ≡ Some literals.now) }
{
    let mut left = bytes;
    for literal in literals {
        if left.is_empty() {
            return false;
        }
        let Some((found, rest)) = first_literal(left) else {
            return false;
        };
        if found != *literal {
            return false;
        }
        left = rest;
    }
    left.is_empty()
}

/// Whether the clause of the step is the resolvent of its chain. If so, it is added to those that
/// were derived. The buffers are overwritten.
pub(crate) fn judge_step(
    clauses: &[Clause],
    derived: &mut Rows<i64>,
    step: StepLine<'_>,
    current: &mut Vec<i64>,
    spare: &mut Vec<i64>,
) -> Result<bool, Memory>
    requires { AllByRecursion IsClause derived.old }
    ensures { IfOk result (λ yes. (s : Inference) → Spells step.entry s
        → IsStepJudged clauses.now derived.old derived.new s yes) }
{
    if !derive(clauses, derived, step.chain, current, spare)? {
        return Ok(false);
    }
    if !are_spelled(current, step.literals) {
        return Ok(false);
    }
    derived.push(current)?;
    Ok(true)
}
