//! Sets of rules within a few allowed changes of given ones.

ghost use Rattle.std.specs.Prelude.{◌≡◌, ◌<◌, ◌≤◌, ◌^◌, ◌↔◌, ◌⊎◌, ℕ, IsTrue, IfOk};
ghost use Rattle.std.specs.List.{AllByRecursion};
ghost use Rattle.mcs_sets.specs.Sets.{union, minus, single, size, Within};
ghost use Rattle.mcs_base.specs.Listings.{IsAmong, IsAscending, IsListing};
ghost use Rattle.mcs_import.specs.Near.{IsMadeBy, IsNextNear, IsNear};

use crate::fewest::{MOST_IN_TABLE, near_by_table};
use mcs_base::{Active, Memory, list_rule_sets};
use std::alloc::Global;

/// Whether the set is among these, which are ascending as numbers.
pub(crate) fn is_listed(sets: &[Active], set: Active) -> bool
    requires { IsAscending (λ (a b : ℕ). a < b) sets.now }
    ensures { IsTrue result ↔ IsAmong set sets.now }
{
    sets.binary_search(&set).is_ok()
}

/// Appends the set, unless it is among those that were reached.
fn add_new(found: &mut Vec<Active>, set: Active, reached: &[Active]) -> Result<(), Memory>
    requires { IsAscending (λ (a b : ℕ). a < b) reached.now }
    ensures { IfOk result (λ _. (x : ℕ)
        → IsAmong x found.new.items
        ↔ (IsAmong x found.old.items ⊎ ((x ≡ set) × (¬ IsAmong x reached.now)))) }
{
    if !is_listed(reached, set) {
        found.push(set)?;
    }
    Ok(())
}

/// Appends the set without each of the rules in turn, unless the result was reached.
fn add_without(
    found: &mut Vec<Active>,
    set: Active,
    rules: Active,
    reached: &[Active],
) -> Result<(), Memory>
    requires { IsAscending (λ (a b : ℕ). a < b) reached.now }
    ensures { IfOk result (λ _. (x : ℕ) → IsAmong x found.new.items
        ↔ (IsAmong x found.old.items
        ⊎ (IsMadeBy (λ r. minus set (single r)) rules x × (¬ IsAmong x reached.now)))) }
{
    for rule in rules.members() {
        add_new(found, set.without(rule), reached)?;
    }
    Ok(())
}

/// Appends the set with each of the rules in turn, unless the result was reached.
fn add_with(
    found: &mut Vec<Active>,
    set: Active,
    rules: Active,
    reached: &[Active],
) -> Result<(), Memory>
    requires { IsAscending (λ (a b : ℕ). a < b) reached.now }
    ensures { IfOk result (λ _. (x : ℕ) → IsAmong x found.new.items
        ↔ (IsAmong x found.old.items
        ⊎ (IsMadeBy (λ r. union set (single r)) rules x × (¬ IsAmong x reached.now)))) }
{
    for rule in rules.members() {
        add_new(found, set.with(rule), reached)?;
    }
    Ok(())
}

/// The sets that one change makes of one of the sets and that were not reached, each once.
fn next_sets(
    alloc: Global,
    sets: &[Active],
    removable: Active,
    forcible: Active,
    reached: &[Active],
) -> Result<Vec<Active>, Memory>
    requires { IsAscending (λ (a b : ℕ). a < b) reached.now }
    ensures { IfOk result (λ next. (x : ℕ)
        → IsAmong x next.items ↔ IsNextNear removable forcible sets.now reached.now x) }
{
    let mut next = Vec::new(alloc);
    for set in sets {
        add_without(&mut next, *set, set.common(removable), reached)?;
        add_with(&mut next, *set, forcible.minus(*set), reached)?;
    }
    list_rule_sets(&mut next);
    Ok(next)
}

/// Whether so many sets of the rules, each once, are all that there are.
fn are_all(count: usize, rules: Active) -> bool
    ensures { IsTrue result → 2 ^ size rules ≤ count }
{
    let rules = rules.count();
    rules < 32 && 1 << rules <= count as u64
}

/// The sets that at most `level` changes make of one of the sets, as `near_sets` gives them. Only the
/// sets that the last change reached are changed again, and none once all sets of the rules were
/// reached.
fn near_by_walk(
    alloc: Global,
    rules: Active,
    removable: Active,
    forcible: Active,
    sets: Vec<Active>,
    level: u32,
) -> Result<Vec<Active>, Memory>
    requires ascending { IsAscending (λ (a b : ℕ). a < b) sets.items }
    requires of_rules { AllByRecursion (λ s. Within s rules) sets.items }
    ensures { IfOk result (λ near.
        IsListing (IsNear rules removable forcible sets.items level) (λ a b. a < b) near.items) }
{
    let forcible = forcible.common(rules);
    let mut reached = Vec::new(alloc);
    reached.extend_from_slice(&sets)?;
    let mut front = sets;
    for _ in 0..level {
        if are_all(reached.len(), rules) {
            return Ok(reached);
        }
        front = next_sets(alloc, &front, removable, forcible, &reached)?;
        if front.is_empty() {
            return Ok(reached);
        }
        reached.extend_from_slice(&front)?;
        list_rule_sets(&mut reached);
    }
    Ok(reached)
}

/// Whether a table is likely to be cheaper than a walk: where the rules are few, and the walk would
/// come to many of their sets, but has not come to all. A step is taken to reach eight times as many.
fn is_for_table(count: usize, rules: Active, level: u32) -> bool
    ensures { IsTrue result → size rules ≤ 16 }
{
    let most = rules.count();
    if most > MOST_IN_TABLE {
        return false;
    }
    let reach = match level {
        0 => 1,
        1 => 8,
        2 => 64,
        3 => 512,
        _ => 4096,
    };
    let all = 1 << most;
    count < all && count.saturating_mul(reach) > all
}

/// The sets that at most `level` changes make of one of the sets: each once, ascending as numbers.
/// A change removes one of the removable rules, or forces one of the forcible ones.
pub(crate) fn near_sets(
    alloc: Global,
    rules: Active,
    removable: Active,
    forcible: Active,
    sets: Vec<Active>,
    level: u32,
) -> Result<Vec<Active>, Memory>
    requires ascending { IsAscending (λ (a b : ℕ). a < b) sets.items }
    requires of_rules { AllByRecursion (λ s. Within s rules) sets.items }
    ensures { IfOk result (λ near.
        IsListing (IsNear rules removable forcible sets.items level) (λ a b. a < b) near.items) }
{
    if is_for_table(sets.len(), rules, level) {
        near_by_table(alloc, rules, removable, forcible, &sets, level)
    } else {
        near_by_walk(alloc, rules, removable, forcible, sets, level)
    }
}
