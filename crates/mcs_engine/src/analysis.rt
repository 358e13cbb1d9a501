//! Conflict analysis: what is learnt from a clause that is false.

ghost use Rattle.std.specs.Prelude.{◌≡◌, [], ◌∷◌, ◌+◌, ◌≤◌, ◌⊎◌, ℤ, List, length, slice_get, Some};
ghost use Rattle.std.specs.Prelude.{IfOk, OnOk};
ghost use Rattle.mcs_engine.specs.Extending.{IsTrail};
ghost use Rattle.mcs_engine.specs.Trails.{IsFalseAt};
ghost use Rattle.mcs_engine.specs.Learning.{AreImplied, GoesOnByReasons, IsLate, IsLearnt};
ghost use Rattle.mcs_engine.specs.Learning.{IsSingle};
ghost use Rattle.mcs_engine.specs.Marking.{IsMarkedChain, IsMarkedWithin, IsResolvedOn};
ghost use Rattle.mcs_engine.specs.Marking.{IsSingleMark};

use crate::marks::{clause_of, is_any_marked, mark_all, resolve_at};
use crate::shorten::shorten;
use crate::trail::Trail;
use mcs_base::{Memory, Rows};
use mcs_trace::Step;
use std::alloc::Global;

/// Resolves the marked clause, which is false, with the reason of the latest of its literals, and
/// so on, until exactly one of its literals became false at the place `start` or later. Appends the
/// numbers of the reasons to the chain.
fn resolve_back(
    clauses: &Rows<i64>,
    trail: &Trail,
    start: usize,
    chain: &mut Vec<u64>,
    marks: &mut Vec<bool>,
) -> Result<(), Memory>
    requires trail { IsTrail clauses.now trail.now }
    requires marked { IsMarkedChain clauses.now trail.now.entries.items chain.old.items
        marks.old.items }
    requires late { (length trail.now.entries.items ≤ start)
        ⊎ IsMarkedWithin marks.old.items start (length trail.now.entries.items) }
    requires implied { AreImplied trail.now.entries.items start }
    ensures resolved { OnOk result (IsResolvedOn clauses.now trail.now.entries.items
        chain.old.items chain.new.items marks.new.items) }
    ensures single { OnOk result (start + 1 ≤ length trail.now.entries.items
        → IsSingleMark start marks.new.items) }
{
    let mut bound = trail.entries.len();
    while bound > start {
        bound -= 1;
        if !marks[bound] {
            continue;
        }
        if !is_any_marked(marks, start, bound) {
            return Ok(());
        }
        resolve_at(clauses, trail, bound, chain, marks)?;
    }
    Ok(())
}

/// The step that follows from a false clause and the reasons of its literals. Exactly one literal
/// of the learnt clause became false at the place `start` or later. If the trail ends before
/// `start`, the learnt clause is empty.
pub fn analyse(
    alloc: Global,
    clauses: &Rows<i64>,
    trail: &Trail,
    start: usize,
    index: usize,
) -> Result<Step, Memory>
    requires trail { IsTrail clauses.now trail.now }
    requires conflict { IsFalseAt clauses.now trail.now.entries.items index }
    requires late { (c : List ℤ) → slice_get clauses.now index ≡ Some c
        → IsLate trail.now.entries.items start c }
    requires implied { AreImplied trail.now.entries.items start }
    ensures learnt { IfOk result (IsLearnt clauses.now trail.now.entries.items) }
    ensures single { IfOk result (λ step. start + 1 ≤ length trail.now.entries.items
        → IsSingle trail.now.entries.items start step.clause) }
    ensures empty { IfOk result (λ step. length trail.now.entries.items ≤ start
        → step.clause ≡ []) }
    ensures chain { IfOk result (λ step. GoesOnByReasons clauses.now trail.now.entries.items
        ((index + 1) ∷ []) step.chain.items) }
{
    let mut marks = vec![in alloc; false; trail.entries.len()]?;
    mark_all(trail, clauses.row(index), &mut marks);
    let mut chain = Vec::new(alloc);
    prove!(index < clauses.len());
    chain.push(index as u64 + 1)?;
    resolve_back(clauses, trail, start, &mut chain, &mut marks)?;
    shorten(clauses, trail, start, &mut chain, &mut marks)?;
    let clause = clause_of(alloc, trail, &marks)?;
    Ok(Step { clause, chain })
}
