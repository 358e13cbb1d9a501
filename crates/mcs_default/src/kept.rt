//! What was found with one set of assumptions, for use with others.

ghost use Rattle.std.specs.Prelude.{◌<◌, ℕ, List, OnOk};
ghost use Rattle.std.specs.List.{AllByRecursion};
ghost use Rattle.mcs_system.specs.Plain as plain;
ghost use Rattle.mcs_classical.specs.Given.{given_names};
ghost use Rattle.mcs_classical.specs.declared.assumptions.Assumption as declared;
ghost use Rattle.mcs_default.specs.Searches.{IsLower, IsUpper, IsConflict};
ghost use Rattle.mcs_default.specs.Keeping.{items_with, IsKeptLower, IsKeptUpper, IsKeptConflict};

use crate::findings::{Lower, Upper};
use mcs_base::{Active, Memory, Vars};
use mcs_classical::{Given, holding};

/// What was found with a set of assumptions, and so with each larger one.
#[derive(Clone, Copy)]
pub(crate) struct KeptLower {
    pub(crate) assumed: Active,
    pub(crate) lower: Lower,
}

/// What was found with a set of assumptions, and so with each smaller one.
#[derive(Clone, Copy)]
pub(crate) struct KeptUpper {
    pub(crate) assumed: Active,
    pub(crate) upper: Upper,
}

/// A set of defaults with whose consequents the facts and a set of assumptions contradict each
/// other, and so with each larger set of assumptions.
#[derive(Clone, Copy)]
pub(crate) struct KeptConflict {
    pub(crate) assumed: Active,
    pub(crate) set: Vars,
}

/// Puts what tells of this set of assumptions in the place of the list.
pub(crate) fn select_lower(
    kept: &[KeptLower],
    assumed: Active,
    lower: &mut Vec<Lower>,
) -> Result<(), Memory>
    ensures { OnOk result ((items : List plain.Item) (given : List declared.Assumption)
        → AllByRecursion (IsKeptLower items given) kept.now
        → AllByRecursion (IsLower (items_with items given assumed)) lower.new.items) }
{
    lower.clear();
    for found in kept {
        if found.assumed.within(assumed) {
            lower.push(found.lower)?;
        }
    }
    Ok(())
}

/// The same of what holds with smaller sets.
pub(crate) fn select_upper(
    kept: &[KeptUpper],
    assumed: Active,
    upper: &mut Vec<Upper>,
) -> Result<(), Memory>
    ensures { OnOk result ((names : List plain.Name) (items : List plain.Item)
        (given : List declared.Assumption) → AllByRecursion (IsKeptUpper names items given) kept.now
        → AllByRecursion (IsUpper names (items_with items given assumed)) upper.new.items) }
{
    upper.clear();
    for found in kept {
        if assumed.within(found.assumed) {
            upper.push(found.upper)?;
        }
    }
    Ok(())
}

/// The same of conflicts.
pub(crate) fn select_conflicts(
    kept: &[KeptConflict],
    assumed: Active,
    conflicts: &mut Vec<Vars>,
) -> Result<(), Memory>
    ensures { OnOk result ((items : List plain.Item) (given : List declared.Assumption)
        → AllByRecursion (IsKeptConflict items given) kept.now
        → AllByRecursion (IsConflict (items_with items given assumed)) conflicts.new.items) }
{
    conflicts.clear();
    for found in kept {
        if found.assumed.within(assumed) {
            conflicts.push(found.set)?;
        }
    }
    Ok(())
}

/// Keeps what was found with this set of assumptions, from the index on; where memory runs out, the
/// first ones of it.
pub(crate) fn keep_lower(
    lower: &[Lower],
    from: usize,
    assumed: Active,
    kept: &mut Vec<KeptLower>,
) -> Result<(), Memory>
    ensures { (items : List plain.Item) (given : List declared.Assumption)
        → AllByRecursion (IsLower (items_with items given assumed)) lower.now
        → AllByRecursion (IsKeptLower items given) kept.old.items
        → AllByRecursion (IsKeptLower items given) kept.new.items }
{
    for index in from..lower.len() {
        kept.push(KeptLower {
            assumed,
            lower: lower[index],
        })?;
    }
    Ok(())
}

/// The same of assignments, each with all assumptions that hold under it.
pub(crate) fn keep_upper(
    upper: &[Upper],
    from: usize,
    given: &Given<'_>,
    kept: &mut Vec<KeptUpper>,
) -> Result<(), Memory>
    ensures { (items : List plain.Item) (set : ℕ)
        → AllByRecursion (IsUpper (given_names given.now)
        (items_with items given.now.assumptions.now set)) upper.now
        → AllByRecursion (IsKeptUpper (given_names given.now) items given.now.assumptions.now)
        kept.old.items → AllByRecursion (IsKeptUpper
        (given_names given.now) items given.now.assumptions.now) kept.new.items }
{
    for index in from..upper.len() {
        let found = upper[index];
        kept.push(KeptUpper {
            assumed: holding(given, found.values),
            upper: found,
        })?;
    }
    Ok(())
}

/// The same of conflicts.
pub(crate) fn keep_conflicts(
    conflicts: &[Vars],
    from: usize,
    assumed: Active,
    kept: &mut Vec<KeptConflict>,
) -> Result<(), Memory>
    ensures { (items : List plain.Item) (given : List declared.Assumption)
        → AllByRecursion (IsConflict (items_with items given assumed)) conflicts.now
        → AllByRecursion (IsKeptConflict items given) kept.old.items
        → AllByRecursion (IsKeptConflict items given) kept.new.items }
{
    for index in from..conflicts.len() {
        kept.push(KeptConflict {
            assumed,
            set: conflicts[index],
        })?;
    }
    Ok(())
}
