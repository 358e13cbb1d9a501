//! Lines that are steps, told by their bytes: no memory is needed.

ghost use Rattle.std.specs.Prelude.{◌≡◌, None, is_some, MatchOption};
ghost use Rattle.mcs_spelling.specs.Words.{numbers_of, step_of};
ghost use Rattle.mcs_steps.specs.Lines.{clause_from, IsStepLine};

use crate::words::{first_literal, first_number};
use mcs_spelling::{find, strip};
use mcs_trace::place;

/// The parts of a line that is a step: the literals of its clause, each with a space after it, and
/// its chain.
#[derive(Clone, Copy)]
pub(crate) struct StepLine<'b> {
    pub literals: &'b [u8],
    pub chain: &'b [u8],
}

/// Whether the bytes spell numbers with a space between them.
fn are_numbers(bytes: &[u8]) -> bool
    ensures { result ≡ is_some (numbers_of bytes.now) }
{
    let mut left = bytes;
    while let Some((_, rest)) = first_number(left) {
        if rest.is_empty() {
            return true;
        }
        left = &rest[1..];
    }
    false
}

/// Whether the bytes spell literals in strictly ascending order, each with a space after it.
fn is_clause(bytes: &[u8]) -> bool
    ensures { result ≡ is_some (clause_from 0 bytes.now) }
{
    let mut left = bytes;
    let mut last = 0;
    while !left.is_empty() {
        let Some((literal, rest)) = first_literal(left) else {
            return false;
        };
        if place(literal) <= last {
            return false;
        }
        last = place(literal);
        left = rest;
    }
    true
}

/// The parts of the line, if it is a step.
#[tactic(auto, unfolding(crate::specs::Lines::clause_from))]
pub(crate) fn split_step(line: &[u8]) -> Option<StepLine<'_>>
    ensures { MatchOption result (step_of line.now ≡ None) (IsStepLine line.now) }
{
    let rest = strip(line, b"step ")?;
    let by = find(rest, b'b')?;
    let chain = strip(&rest[by..], b"by ")?;
    let literals = &rest[..by];
    if is_clause(literals) && are_numbers(chain) {
        Some(StepLine { literals, chain })
    } else {
        None
    }
}
