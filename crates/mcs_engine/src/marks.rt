//! A false clause, as marks at the places of the trail at which its literals became false.

ghost use Rattle.std.specs.Prelude.{◌≡◌, ◌≢◌, ◌≤◌, ◌<◌, length, unsigned_abs, IfOk};
ghost use Rattle.std.specs.Prelude.{OnOk};
ghost use Rattle.std.specs.Bool.{MatchBool};
ghost use Rattle.mcs_base.specs.Listings.{IsListing};
ghost use Rattle.mcs_trace.specs.Clauses.{LiteralBefore};
ghost use Rattle.mcs_engine.specs.Extending.{IsTrail};
ghost use Rattle.mcs_engine.specs.Trails.{IsClauseOver, literal_at, reason_at};
ghost use Rattle.mcs_engine.specs.Marking.{AreUnmarked, IsVariableMarked, IsMarkedChain};
ghost use Rattle.mcs_engine.specs.Marking.{IsMarkedWithin, IsMetAt, IsOfMarks, IsResolvedOn};
ghost use Rattle.mcs_engine.specs.Marking.{IsTakenOff, MarksAlso};

use crate::trail::Trail;
use mcs_base::{Memory, Rows};
use mcs_trace::Clause;
use std::alloc::Global;

/// Marks the place of the literal's variable on the trail, if it has one.
fn mark_one(trail: &Trail, literal: i64, marks: &mut Vec<bool>)
    requires within { unsigned_abs literal < length trail.now.positions.items }
    requires sized { length marks.old.items ≡ length trail.now.entries.items }
    ensures { MarksAlso trail.now.entries.items (λ p. unsigned_abs (literal_at
        trail.now.entries.items p) ≡ unsigned_abs literal) marks.old.items marks.new.items }
{
    let Some(place) = trail.position(literal) else {
        return;
    };
    marks[place] = true;
}

/// Marks the places of the variables of the clause.
pub(crate) fn mark_all(trail: &Trail, literals: &[i64], marks: &mut Vec<bool>)
    requires clause { IsClauseOver trail.now.positions.items literals.now }
    requires sized { length marks.old.items ≡ length trail.now.entries.items }
    ensures { MarksAlso trail.now.entries.items (IsMetAt trail.now.entries.items literals.now)
        marks.old.items marks.new.items }
{
    for literal in literals {
        mark_one(trail, *literal, marks);
    }
}

/// Whether the places of the variables of the clause are marked.
pub(crate) fn are_marked(trail: &Trail, literals: &[i64], marks: &[bool]) -> bool
    requires clause { IsClauseOver trail.now.positions.items literals.now }
    requires sized { length marks.now ≡ length trail.now.entries.items }
{
    for literal in literals {
        let Some(place) = trail.position(*literal) else {
            return false;
        };
        if !marks[place] {
            return false;
        }
    }
    true
}

/// Whether a place from `from` up to, but not including, `to` is marked.
pub(crate) fn is_any_marked(marks: &[bool], from: usize, to: usize) -> bool
    requires { to ≤ length marks.now }
    ensures { MatchBool result (IsMarkedWithin marks.now from to) (AreUnmarked marks.now from to) }
{
    let mut place = to;
    while place > from {
        place -= 1;
        if marks[place] {
            return true;
        }
    }
    false
}

/// Resolves the marked clause with the reason of the literal at the place, and appends the number
/// of the reason to the chain.
pub(crate) fn resolve_at(
    clauses: &Rows<i64>,
    trail: &Trail,
    place: usize,
    chain: &mut Vec<u64>,
    marks: &mut Vec<bool>,
) -> Result<(), Memory>
    requires trail { IsTrail clauses.now trail.now }
    requires marked { IsMarkedChain clauses.now trail.now.entries.items chain.old.items
        marks.old.items }
    requires here { IsVariableMarked marks.old.items place }
    requires implied { reason_at trail.now.entries.items place ≢ 0 }
    ensures resolved { OnOk result (IsResolvedOn clauses.now trail.now.entries.items
        chain.old.items chain.new.items marks.new.items) }
    ensures off { OnOk result (IsTakenOff marks.old.items marks.new.items place) }
{
    let cause = trail.entries[place].reason;
    chain.push(cause)?;
    mark_all(trail, clauses.row(cause as usize - 1), marks);
    marks[place] = false;
    Ok(())
}

/// The marked clause.
pub(crate) fn clause_of(alloc: Global, trail: &Trail, marks: &[bool]) -> Result<Clause, Memory>
    requires { length marks.now ≡ length trail.now.entries.items }
    ensures { IfOk result (IsListing (IsOfMarks trail.now.entries.items marks.now
        (length marks.now)) LiteralBefore) }
{
    let mut clause = Clause::empty(alloc);
    for place in 0..marks.len() {
        if !marks[place] {
            continue;
        }
        clause.insert(trail.negated(place))?;
    }
    Ok(clause)
}
