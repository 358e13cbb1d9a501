//! What was found out of sets of defaults, which tells of larger sets or of smaller ones too.

ghost use Rattle.std.specs.Prelude.{◌≡◌, ◌<◌, ◌≤◌, [], List, length, IsTrue};
ghost use Rattle.std.specs.List.{AllByRecursion};
ghost use Rattle.mcs_system.specs.Logic.{Entails};
ghost use Rattle.mcs_system.specs.Plain as plain;
ghost use Rattle.mcs_system.specs.Seen.{formula_of};
ghost use Rattle.mcs_evidence.specs.Defaults.{generated};
ghost use Rattle.mcs_default.specs.Searches.{IsLower, IsUpper, IsSupportedAt, IsUnsupportedAt};
ghost use Rattle.mcs_default.specs.Searches.{IsAllowedAt, IsBlockedAt, IsConflict};
ghost use Rattle.mcs_default.specs.Searches.{HasFoundNothing};

use mcs_base::{Memory, Vars};
use mcs_sat::ClauseBase;
use mcs_system::{Formula, Name, holds_at};
use std::alloc::Global;

/// What the consequents of a set of defaults are enough for, and so those of each larger set.
#[derive(Clone, Copy)]
pub(crate) struct Lower {
    /// The set.
    pub(crate) set: Vars,
    /// Defaults whose prerequisites follow.
    pub(crate) supported: Vars,
    /// Defaults that are blocked: the negation of a justification follows.
    pub(crate) blocked: Vars,
}

/// What the consequents of a set of defaults are not enough for, nor those of any smaller set: an
/// assignment shows it.
#[derive(Clone, Copy)]
pub(crate) struct Upper {
    /// The places of the atoms that are true under the assignment. The facts hold under it.
    pub(crate) values: Vars,
    /// The set: the defaults whose consequents hold.
    pub(crate) set: Vars,
    /// The prerequisites of no other defaults follow.
    pub(crate) supported: Vars,
    /// Defaults that are not blocked.
    pub(crate) allowed: Vars,
}

/// The clauses of the facts of a theory, and what was found of sets of its defaults.
#[derive(Drop)]
pub(crate) struct Findings {
    pub(crate) facts: ClauseBase,
    pub(crate) lower: Vec<Lower>,
    pub(crate) upper: Vec<Upper>,
    /// Sets with whose consequents the facts contradict each other.
    pub(crate) conflicts: Vec<Vars>,
}

impl Findings {
    /// Nothing is found yet.
    pub(crate) fn new(alloc: Global, facts: ClauseBase) -> Findings
        ensures { HasFoundNothing facts result }
    {
        Findings {
            facts,
            lower: Vec::new(alloc),
            upper: Vec::new(alloc),
            conflicts: Vec::new(alloc),
        }
    }

    /// No clauses and no findings, to stand for others while these are lent.
    pub(crate) fn none(alloc: Global) -> Result<Findings, Memory> {
        Ok(Findings::new(alloc, ClauseBase::new(alloc, 0)?))
    }
}

/// Whether it was found that the default at the index is supported by the set.
pub(crate) fn is_supported(lower: &[Lower], set: Vars, index: u32) -> bool
    requires { index < 64 }
    ensures { (items : List plain.Item) → AllByRecursion (IsLower items) lower.now → IsTrue result
        → IsSupportedAt items set index }
{
    for found in lower {
        if found.supported.has(index) && found.set.within(set) {
            return true;
        }
    }
    false
}

/// Whether it was found that the default at the index is blocked by the set.
pub(crate) fn is_blocked(lower: &[Lower], set: Vars, index: u32) -> bool
    requires { index < 64 }
    ensures { (items : List plain.Item) → AllByRecursion (IsLower items) lower.now → IsTrue result
        → IsBlockedAt items set index }
{
    for found in lower {
        if found.blocked.has(index) && found.set.within(set) {
            return true;
        }
    }
    false
}

/// Whether it was found that the default at the index is not supported by the set.
pub(crate) fn is_unsupported(upper: &[Upper], set: Vars, index: u32) -> bool
    requires { index < 64 }
    ensures { (names : List plain.Name) (items : List plain.Item)
        → AllByRecursion (IsUpper names items) upper.now → IsTrue result
        → IsUnsupportedAt items set index }
{
    for found in upper {
        if !found.supported.has(index) && set.within(found.set) {
            return true;
        }
    }
    false
}

/// Whether it was found that the default at the index is not blocked by the set.
pub(crate) fn is_allowed(upper: &[Upper], set: Vars, index: u32) -> bool
    requires { index < 64 }
    ensures { (names : List plain.Name) (items : List plain.Item)
        → AllByRecursion (IsUpper names items) upper.now → IsTrue result
        → IsAllowedAt items set index }
{
    for found in upper {
        if found.allowed.has(index) && set.within(found.set) {
            return true;
        }
    }
    false
}

/// Whether it was found that the facts and the consequents of the set contradict each other.
pub(crate) fn has_conflict(conflicts: &[Vars], set: Vars) -> bool
    ensures { (items : List plain.Item) → AllByRecursion (IsConflict items) conflicts.now
        → IsTrue result → IsConflict items set }
{
    for conflict in conflicts {
        if conflict.within(set) {
            return true;
        }
    }
    false
}

/// Whether it was found that they do not.
pub(crate) fn is_consistent(upper: &[Upper], set: Vars) -> bool
    ensures { (names : List plain.Name) (items : List plain.Item)
        → AllByRecursion (IsUpper names items) upper.now → IsTrue result → ¬ IsConflict items set }
{
    for found in upper {
        if set.within(found.set) {
            return true;
        }
    }
    false
}

/// Whether it was found that the formula does not follow from the facts and the consequents of the
/// set: an assignment under which all of these hold denies it.
pub(crate) fn is_denied(upper: &[Upper], atoms: &[Name], set: Vars, formula: &Formula) -> bool
    requires { length atoms.now ≤ 64 }
    ensures { (items : List plain.Item) → AllByRecursion (IsUpper atoms.now items) upper.now
        → IsTrue result → ¬ Entails (generated items set) (formula_of formula.now) }
{
    for found in upper {
        if set.within(found.set) && !holds_at(atoms, found.values, formula) {
            return true;
        }
    }
    false
}
