//! Rows of one state at the inputs of a context.

ghost use Rattle.std.specs.Prelude.{◌≡◌, ◌<◌, ◌↔◌, ◌++◌, ℕ, map, filter, length, false, true};
ghost use Rattle.std.specs.Prelude.{IfOk, IsTrue, MatchOption};
ghost use Rattle.std.specs.List.{AllByRecursion, flat_map};
ghost use Rattle.mcs_base.specs.Antichains.{HasOneWithin};
ghost use Rattle.mcs_sets.specs.Sets.{common, Meets, Within};
ghost use Rattle.mcs_system.specs.Imports.{marks_at, rules_into};
ghost use Rattle.mcs_system.specs.Plain.{System};
ghost use Rattle.mcs_system.specs.Repairs.{allowed_marks};
ghost use Rattle.mcs_system.specs.Systems.{applicable};
ghost use Rattle.mcs_rows.specs.Making.{agrees, is_in_reach, row_with, rows_with};
ghost use Rattle.mcs_rows.specs.Reach.{AreAloneKnown, ComesTo, IsReach, IsOut, HasMarksFor};
ghost use Rattle.mcs_rows.specs.Reach.{own_marks};
ghost use Rattle.mcs_rows.specs.declared.answer.Answer as declared;

use crate::answer::Answer;
use crate::marks::marks_of;
use mcs_base::{Active, Marks, Memory, Pair, Partial, Vars};
use mcs_system::System;
use mcs_table::{Row, holds_one};
use std::alloc::Global;

/// The row with these marks that says of the local variables which of them are true.
pub(crate) fn row(local: Vars, values: Vars, marks: Marks) -> Row
    ensures { result
        ≡ record { state = record { mask = local; values = common values local }; marks = marks } }
{
    Row {
        state: Partial::new(local, values.common(local)),
        marks,
    }
}

/// Adds the rows of context `i` of the state at its inputs with each of the parts that agrees with
/// it.
pub(crate) fn add_parts(
    rows: &mut Vec<Row>,
    system: &System,
    i: u32,
    state: Vars,
    marks: Marks,
    parts: &[Vars],
) -> Result<(), Memory>
    requires { i < length system.now.contexts }
    ensures { IfOk result (λ _. rows.new.items
        ≡ rows.old.items ++ map (row_with system.now i state marks)
        (filter (agrees system.now i state) parts.now)) }
{
    let inputs = system.inputs_of(i);
    let variables = system.vars_of(i);
    let own = state.common(variables);
    let local = variables.union(inputs);
    for part in parts {
        if part.common(inputs) == own {
            rows.push(row(local, part.union(state), marks))?;
        }
    }
    Ok(())
}

/// Which marks a row may have, and how many, and the sets of marks of which it is to hold none.
#[derive(Drop)]
pub(crate) struct Reach<'a> {
    pub allowed: Marks,
    pub level: u32,
    pub known: &'a [Marks],
    // Marks that are such a set each by itself.
    pub alone: Marks,
    // Rules that no such row removes, and rules that none forces: the mark is not allowed, or is
    // such a set by itself.
    pub never_removed: Active,
    pub never_forced: Active,
}

/// The marks that are one of the sets each by itself.
pub(crate) fn alone_in(sets: &[Marks]) -> Marks
    ensures { (s : ℕ) → Meets s result → HasOneWithin sets.now s }
{
    let mut alone = Marks::empty();
    for set in sets {
        if set.count() == 1 {
            alone = alone.union(*set);
        }
    }
    alone
}

/// Those of the sets that a row of context `i` may hold: all of their marks are of rules into the
/// context.
pub(crate) fn known_of(
    alloc: Global,
    system: &System,
    i: u32,
    known: &[Marks],
) -> Result<Vec<Marks>, Memory>
    requires { i < length system.now.contexts }
    ensures { IfOk result (λ near. (s : ℕ) → Within s (own_marks system.now i)
        → HasOneWithin near.items s ↔ HasOneWithin known.now s) }
{
    let rules = system.rules_of(i);
    let own = marks_of(rules, rules);
    let mut near = Vec::new(alloc);
    for set in known {
        if set.within(own) {
            near.push(*set)?;
        }
    }
    Ok(near)
}

/// The rows with at most so many marks, each of them allowed, that hold none of the known sets.
pub(crate) fn reach_of<'a>(system: &System, level: u32, known: &'a [Marks]) -> Reach<'a>
    ensures level { result.level ≡ level }
    ensures known { result.known.now ≡ known.now }
    ensures reach { IsReach system.now result }
{
    let allowed = system.allowed();
    let alone = alone_in(known);
    let may = Pair::new(allowed.minus(alone));
    let every = Active::numbered(u64::MAX);
    Reach {
        allowed,
        level,
        known,
        alone,
        never_removed: every.minus(may.removed()),
        never_forced: every.minus(may.forced()),
    }
}

/// Whether it is seen without its marks that no such row removes and forces just these rules.
pub(crate) fn is_out(removed: Active, forced: Active, reach: &Reach) -> bool
    ensures { (m : System) (s : ℕ) → IsReach m reach.now → IsTrue result
        → HasMarksFor removed forced s → IsOut reach.now s }
{
    removed.meets(reach.never_removed) || forced.meets(reach.never_forced)
}

/// Whether the marks hold one of the known sets.
pub(crate) fn hold_known(marks: Marks, reach: &Reach) -> bool
    requires alone { AreAloneKnown reach.now }
    ensures { IsTrue result ↔ HasOneWithin reach.now.known.now marks }
{
    marks.meets(reach.alone) || holds_one(marks, reach.known)
}

/// The marks that remove and force these rules, if they are few, each of them allowed, and hold no
/// known set.
pub(crate) fn reachable(removed: Active, forced: Active, reach: &Reach) -> Option<Marks>
    requires alone { AreAloneKnown reach.now }
    ensures { (m : System) (i state x : ℕ) → ComesTo m i state x removed forced
        → reach.now.allowed ≡ allowed_marks m
        → MatchOption result
        (is_in_reach m i reach.now.level reach.now.known.now state x ≡ false)
        (λ marks. (marks ≡ marks_at m i state x)
        × (is_in_reach m i reach.now.level reach.now.known.now state x ≡ true)) }
{
    if removed.count() + forced.count() > reach.level {
        return None;
    }
    let marks = marks_of(removed, forced);
    if !marks.within(reach.allowed) || hold_known(marks, reach) {
        return None;
    }
    Some(marks)
}

/// Adds the rows of context `i` of the state at its inputs with the answer, where few changes, each
/// of them allowed, make what was asked of the rules that apply in the state, and hold no known
/// set.
fn add_answer(
    rows: &mut Vec<Row>,
    system: &System,
    i: u32,
    state: Vars,
    applying: Active,
    answer: &Answer,
    reach: &Reach,
) -> Result<(), Memory>
    requires in_range { i < length system.now.contexts }
    requires applying { applying ≡ common (applicable system.now state) (rules_into system.now i) }
    requires of_rules { Within answer.now.active (rules_into system.now i) }
    requires reach { IsReach system.now reach.now }
    ensures { IfOk result (λ _. rows.new.items ≡ rows.old.items
        ++ rows_with system.now i reach.now.level reach.now.known.now state answer.now) }
{
    let removed = applying.minus(answer.active);
    let forced = answer.active.minus(applying);
    if is_out(removed, forced, reach) {
        return Ok(());
    }
    let Some(marks) = reachable(removed, forced, reach) else {
        return Ok(());
    };
    add_parts(rows, system, i, state, marks, &answer.parts)
}

/// Adds the rows of context `i` of the state at its inputs with each of the answers, without those
/// that hold a known set.
pub(crate) fn add_answers(
    rows: &mut Vec<Row>,
    system: &System,
    i: u32,
    state: Vars,
    answers: &[Answer],
    reach: &Reach,
) -> Result<(), Memory>
    requires in_range { i < length system.now.contexts }
    requires of_rules { AllByRecursion (λ (a : declared.Answer).
        Within a.active (rules_into system.now i)) answers.now }
    requires reach { IsReach system.now reach.now }
    ensures { IfOk result (λ _. rows.new.items
        ≡ rows.old.items ++ flat_map (rows_with system.now i reach.now.level reach.now.known.now
        state) answers.now) }
{
    let applying = system.applicable(i, state);
    for answer in answers {
        add_answer(rows, system, i, state, applying, answer, reach)?;
    }
    Ok(())
}
