//! Names at places of a list, and names in other lists.

ghost use Rattle.std.specs.Prelude.{◌≡◌, ◌≤◌, not, length, filter, IfOk};
ghost use Rattle.std.specs.List.{list_any, list_all};
ghost use Rattle.mcs_system.specs.Logic.{is_in, true_names};
ghost use Rattle.mcs_system.specs.Seen.{rule_of};
ghost use Rattle.mcs_evidence.specs.Programs.{false_names, is_broken_by};

use mcs_base::{Memory, Vars};
use mcs_system::{Name, ProgRule};
use std::alloc::Global;

/// Whether the name is one of these.
pub(crate) fn is_among(name: &Name, names: &[Name]) -> bool
    ensures { result ≡ is_in name.now names.now }
{
    names.iter().any(|other| name.is(other))
}

/// Whether one of the names is one of those.
pub(crate) fn some_among(names: &[Name], those: &[Name]) -> bool
    ensures { result ≡ list_any (λ n. is_in n those.now) names.now }
{
    names.iter().any(|name| is_among(name, those))
}

/// Whether each of the names is one of those.
pub(crate) fn all_among(names: &[Name], those: &[Name]) -> bool
    ensures { result ≡ list_all (λ n. is_in n those.now) names.now }
{
    names.iter().all(|name| is_among(name, those))
}

/// Whether the names contain the positive body of the rule and none of its head atoms.
pub(crate) fn is_broken(names: &[Name], rule: &ProgRule) -> bool
    ensures { result ≡ is_broken_by names.now (rule_of rule.now) }
{
    all_among(&rule.pos, names) && !some_among(&rule.head, names)
}

/// The atoms at the places, in order.
pub fn names_at(alloc: Global, atoms: &[Name], places: Vars) -> Result<Vec<Name>, Memory>
    requires few { length atoms.now ≤ 64 }
    ensures { IfOk result (λ names. names.items ≡ true_names 0 atoms.now places) }
{
    let mut names = Vec::new(alloc);
    for (k, atom) in atoms.iter().enumerate() {
        if places.has(k as u32) {
            names.push(atom.copy(alloc)?)?;
        }
    }
    Ok(names)
}

/// The atoms that are not at the places, in order.
pub(crate) fn names_beside(alloc: Global, atoms: &[Name], places: Vars) -> Result<Vec<Name>, Memory>
    requires few { length atoms.now ≤ 64 }
    ensures { IfOk result (λ names. names.items ≡ false_names 0 atoms.now places) }
{
    let mut names = Vec::new(alloc);
    for (k, atom) in atoms.iter().enumerate() {
        if !places.has(k as u32) {
            names.push(atom.copy(alloc)?)?;
        }
    }
    Ok(names)
}

/// Those of the names that are not among the others, in order.
pub(crate) fn names_apart(
    alloc: Global,
    names: &[Name],
    others: &[Name],
) -> Result<Vec<Name>, Memory>
    ensures { IfOk result (λ apart. apart.items
        ≡ filter (λ n. not (is_in n others.now)) names.now) }
{
    let mut apart = Vec::new(alloc);
    for name in names {
        if !is_among(name, others) {
            apart.push(name.copy(alloc)?)?;
        }
    }
    Ok(apart)
}
