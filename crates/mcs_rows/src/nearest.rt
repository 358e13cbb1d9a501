//! The questions to which a context accepts a part, and what has to be changed least to come to one
//! of them.

ghost use Rattle.std.specs.Prelude.{◌≡◌, ◌↔◌, ◌⊎◌, ℕ, IfOk, IfSome, IsTrue, Some, slice_get};
ghost use Rattle.std.specs.List.{AllByRecursion};
ghost use Rattle.mcs_sets.specs.Sets.{Within};
ghost use Rattle.mcs_base.specs.Antichains.{HasOneWithin};
ghost use Rattle.mcs_base.specs.Listings.{IsAmong};
ghost use Rattle.mcs_system.specs.Imports.{rules_into};
ghost use Rattle.mcs_system.specs.Plain.{System};
ghost use Rattle.mcs_rows.specs.Nearest.{AddsNear, AppliesAt, AreNearest, AreSupported};
ghost use Rattle.mcs_rows.specs.Nearest.{HasNearWithin, IsAnswered, IsSupported};
ghost use Rattle.mcs_rows.specs.Reach.{AreAloneKnown};
ghost use Rattle.mcs_rows.specs.declared.nearest.Accepted as accepted;
ghost use Rattle.mcs_rows.specs.declared.nearest.Supported as supported;

use crate::answer::Answer;
use crate::local::{Reach, is_out, reachable};
use mcs_base::{Active, Marks, Memory, Vars};
use std::alloc::Global;

/// A part that a context accepts, and a question to which it accepts it.
#[derive(Clone, Copy)]
struct Accepted {
    part: Vars,
    question: Active,
}

/// A part that a context accepts, and the questions to which it accepts it.
#[derive(Drop)]
pub(crate) struct Supported {
    pub part: Vars,
    pub questions: Vec<Active>,
}

/// Adds each part of the answer with its question.
fn add_parts_of(all: &mut Vec<Accepted>, answer: &Answer) -> Result<(), Memory>
    ensures { IfOk result (λ _. (a : accepted.Accepted) → IsAmong a all.new.items
        ↔ (IsAmong a all.old.items ⊎ (IsAmong a.part answer.now.parts.items
        × (a.question ≡ answer.now.active)))) }
{
    for part in &answer.parts {
        all.push(Accepted {
            part: *part,
            question: answer.active,
        })?;
    }
    Ok(())
}

/// Each part of each answer with its question, those of one part one after the other.
fn accepted_in(alloc: Global, answers: &[Answer]) -> Result<Vec<Accepted>, Memory>
    ensures { IfOk result (λ all. (a : accepted.Accepted) → IsAmong a all.items
        ↔ IsAnswered answers.now a.part a.question) }
{
    let mut all = Vec::new(alloc);
    for answer in answers {
        add_parts_of(&mut all, answer)?;
    }
    all.sort_unstable_by_key(|one| (one.part, one.question));
    Ok(all)
}

/// The last place, if the part stands there.
fn last_place_of(all: &[Supported], part: Vars) -> Option<usize>
    ensures { IfSome result (λ place. (one : supported.Supported)
        × (slice_get all.now place ≡ Some one) × (one.part ≡ part)) }
{
    let place = all.len().checked_sub(1)?;
    if all[place].part == part {
        Some(place)
    } else {
        None
    }
}

/// Adds a question to which the part is accepted: to the last part, if it is this one.
fn add_question(
    alloc: Global,
    all: &mut Vec<Supported>,
    part: Vars,
    question: Active,
) -> Result<(), Memory>
    ensures { IfOk result (λ _. (τ x : ℕ) → IsSupported all.new.items τ x
        ↔ (IsSupported all.old.items τ x ⊎ ((τ ≡ part) × (x ≡ question)))) }
{
    match last_place_of(all, part) {
        Some(place) => all[place].questions.push(question)?,
        None => {
            let mut questions = Vec::new(alloc);
            questions.push(question)?;
            all.push(Supported { part, questions })?;
        }
    }
    Ok(())
}

/// Each part of the answers, with the questions to which it is accepted, ascending.
pub(crate) fn supported_in(alloc: Global, answers: &[Answer]) -> Result<Vec<Supported>, Memory>
    ensures { IfOk result (λ all. AreSupported answers.now all.items) }
{
    let accepted = accepted_in(alloc, answers)?;
    let mut all = Vec::new(alloc);
    for one in &accepted {
        add_question(alloc, &mut all, one.part, one.question)?;
    }
    Ok(all)
}

/// What has to be changed of the rules that apply, so that those of a question act: rules that are
/// removed or forced, and their marks.
#[derive(Drop)]
pub(crate) struct Near {
    pub changes: Active,
    pub marks: Marks,
}

/// Whether the changes of one of these lie within these changes.
fn has_near_within(found: &[Near], changes: Active) -> bool
    ensures { IsTrue result → HasNearWithin found.now changes }
{
    for near in found {
        if near.changes.within(changes) {
            return true;
        }
    }
    false
}

/// Adds what has to be changed of the rules that apply to come to the question, if it is in reach
/// and nothing that was found lies within it. What it lies within goes.
fn add_near(
    found: &mut Vec<Near>,
    applying: Active,
    question: Active,
    reach: &Reach,
) -> Result<(), Memory>
    requires alone { AreAloneKnown reach.now }
    ensures { IfOk result (λ _. (m : System) (i state : ℕ) → AppliesAt m i state applying reach.now
        → Within question (rules_into m i)
        → AddsNear m i state reach.now applying question found.old.items found.new.items) }
{
    let removed = applying.minus(question);
    let forced = question.minus(applying);
    let changes = removed.union(forced);
    if is_out(removed, forced, reach) || has_near_within(found, changes) {
        return Ok(());
    }
    let Some(marks) = reachable(removed, forced, reach) else {
        return Ok(());
    };
    found.retain(|near| !changes.within(near.changes));
    found.push(Near { changes, marks })?;
    Ok(())
}

/// What has to be changed least of the rules that apply, within reach, to come to one of the
/// questions. Marks are in reach if there are none.
pub(crate) fn nearest(
    alloc: Global,
    questions: &[Active],
    applying: Active,
    reach: &Reach,
) -> Result<Vec<Near>, Memory>
    requires alone { AreAloneKnown reach.now }
    requires new { ¬ HasOneWithin reach.now.known.now 0 }
    ensures { IfOk result (λ found. (m : System) (i state : ℕ)
        → AppliesAt m i state applying reach.now
        → AllByRecursion (λ x. Within x (rules_into m i)) questions.now
        → AreNearest m i state reach.now applying questions.now found.items) }
{
    let mut found = Vec::new(alloc);
    if questions.binary_search(&applying).is_ok() {
        found.push(Near {
            changes: Active::empty(),
            marks: Marks::empty(),
        })?;
        return Ok(found);
    }
    for question in questions {
        add_near(&mut found, applying, *question, reach)?;
    }
    Ok(found)
}
