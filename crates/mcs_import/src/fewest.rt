//! Which sets of few rules are near given ones, by a table of the fewest changes that make each.

ghost use Rattle.std.specs.Prelude.{◌≡◌, ◌<◌, ◌≤◌, ◌+◌, ◌++◌, ◌∷◌, ◌↔◌, [], ℕ, IfOk, cond};
ghost use Rattle.std.specs.Prelude.{nat_le, min, length, get_or, map};
ghost use Rattle.std.specs.List.{AllByRecursion};
ghost use Rattle.mcs_sets.specs.Sets.{has, union, single, size, members, Within};
ghost use Rattle.mcs_base.specs.Listings.{IsAmong, IsAscending, IsListing};
ghost use Rattle.mcs_import.specs.Near.{IsNear};
ghost use Rattle.mcs_import.specs.Fewest.{AreSetsOf, IsTable, AreTaken, toggled, fewest_at, picked};

use crate::near::is_listed;
use mcs_base::{Active, Memory, Vars};
use std::alloc::Global;

/// The most rules whose sets a table has places for.
pub(crate) const MOST_IN_TABLE: u32 = 16;

/// Appends each of the sets with the rule added.
fn add_with_rule(sets: &mut Vec<Active>, rule: u32) -> Result<(), Memory>
    requires { rule < 64 }
    ensures { IfOk result (λ _. sets.new.items
        ≡ sets.old.items ++ map (λ s. union s (single rule)) sets.old.items) }
{
    for index in 0..sets.len() {
        sets.push(sets[index].with(rule))?;
    }
    Ok(())
}

/// All sets of the rules, ascending as numbers. The set at a place has the j-th of the rules where
/// bit `j` of the place is set.
fn sets_of(alloc: Global, rules: Active) -> Result<Vec<Active>, Memory>
    ensures { IfOk result (λ all. AreSetsOf (members rules) all.items) }
{
    let mut all = vec![in alloc; Active::empty()]?;
    for rule in rules.members() {
        add_with_rule(&mut all, rule)?;
    }
    Ok(all)
}

/// The fewest changes that make the set where no rule may be changed: none if it is listed, else 255,
/// which stands for none that do.
fn unchanged_at(sets: &[Active], set: Active) -> u8
    requires { IsAscending (λ (a b : ℕ). a < b) sets.now }
    ensures { (m : ℕ) → m < 255 → (result ≤ m) ↔ IsAmong set sets.now }
{
    if is_listed(sets, set) { 0 } else { u8::MAX }
}

/// The fewest changes that make each of all sets where no rule may be changed.
fn unchanged(alloc: Global, all: &[Active], sets: &[Active]) -> Result<Vec<u8>, Memory>
    requires { IsAscending (λ (a b : ℕ). a < b) sets.now }
    ensures { IfOk result (λ fewest. IsTable (λ m x. IsAmong x sets.now) all.now fewest.items) }
{
    let mut fewest = Vec::with_capacity(alloc, all.len())?;
    for set in all {
        fewest.push(unchanged_at(sets, *set))?;
    }
    Ok(fewest)
}

/// The place with the other value of the bit.
fn toggled(place: usize, bit: u32) -> usize
    requires { bit < 64 }
    ensures { result ≡ toggled place bit }
{
    let set = Vars::numbered(place as u64);
    if set.has(bit) {
        set.without(bit).number() as usize
    } else {
        set.with(bit).number() as usize
    }
}

/// Whether the rule of the bit may be changed to what the place has: forced where the bit is set.
fn may_change(place: usize, bit: u32, removable: bool, forcible: bool) -> bool
    requires { bit < 64 }
    ensures { result ≡ cond (has place bit) forcible removable }
{
    if Vars::numbered(place as u64).has(bit) {
        forcible
    } else {
        removable
    }
}

/// The fewest changes at the place, where the rule of this bit of a place may be changed too.
fn fewest_at(fewest: &[u8], place: usize, bit: u32, removable: bool, forcible: bool) -> u8
    requires in_set { bit < 64 }
    requires here { place < length fewest.now }
    requires there { toggled place bit < length fewest.now }
    ensures { result ≡ fewest_at fewest.now bit removable forcible place }
{
    let (here, there) = (fewest[place], fewest[toggled(place, bit)]);
    if there < here && may_change(place, bit, removable, forcible) {
        there + 1
    } else {
        here
    }
}

/// The fewest changes at each place, where the rule of this bit of a place may be changed too.
fn with_rule(
    alloc: Global,
    fewest: &[u8],
    bit: u32,
    removable: bool,
    forcible: bool,
) -> Result<Vec<u8>, Memory>
    requires in_set { bit < 64 }
    requires closed { (p : ℕ) → p < length fewest.now → toggled p bit < length fewest.now }
    ensures { IfOk result (λ next. AreTaken (fewest_at fewest.now bit removable forcible)
        (length fewest.now) next.items) }
{
    let mut next = Vec::with_capacity(alloc, fewest.len())?;
    for place in 0..fewest.len() {
        next.push(fewest_at(fewest, place, bit, removable, forcible))?;
    }
    Ok(next)
}

/// The fewest allowed changes that make each of all sets of the rules of one that is listed.
fn fewest_changes(
    alloc: Global,
    rules: Active,
    removable: Active,
    forcible: Active,
    sets: &[Active],
    all: &[Active],
) -> Result<Vec<u8>, Memory>
    requires ascending { IsAscending (λ (a b : ℕ). a < b) sets.now }
    requires of_rules { AllByRecursion (λ s. Within s rules) sets.now }
    requires all { AreSetsOf (members rules) all.now }
    ensures { IfOk result (λ fewest.
        IsTable (IsNear rules removable forcible sets.now) all.now fewest.items) }
{
    let mut fewest = unchanged(alloc, all, sets)?;
    for (bit, rule) in rules.members().enumerate() {
        fewest = with_rule(
            alloc,
            &fewest,
            bit as u32,
            removable.has(rule),
            forcible.has(rule),
        )?;
    }
    Ok(fewest)
}

/// As many changes as any set of few rules needs, or the level where that is less.
fn most_needed(level: u32) -> u32
    ensures { result ≡ min level 32 }
{
    level.min(2 * MOST_IN_TABLE)
}

/// Appends the set at the place, if at most so many changes make it.
fn add_near(
    near: &mut Vec<Active>,
    all: &[Active],
    fewest: &[u8],
    place: usize,
    most: u32,
) -> Result<(), Memory>
    requires here { place < length all.now }
    requires there { place < length fewest.now }
    ensures { IfOk result (λ _. near.new.items ≡ cond (nat_le (get_or fewest.now place 0) most)
        (near.old.items ++ get_or all.now place 0 ∷ []) near.old.items) }
{
    if fewest[place] as u32 <= most {
        near.push(all[place])?;
    }
    Ok(())
}

/// The sets that at most so many changes make.
fn picked(alloc: Global, all: &[Active], fewest: &[u8], most: u32) -> Result<Vec<Active>, Memory>
    requires { length fewest.now ≡ length all.now }
    ensures { IfOk result (λ near.
        near.items ≡ picked all.now fewest.now most (length all.now)) }
{
    let mut near = Vec::new(alloc);
    for place in 0..all.len() {
        add_near(&mut near, all, fewest, place, most)?;
    }
    Ok(near)
}

/// The sets that at most `level` changes make of one of the sets, as `near_sets` gives them. The
/// table has a place for each set of the rules.
pub(crate) fn near_by_table(
    alloc: Global,
    rules: Active,
    removable: Active,
    forcible: Active,
    sets: &[Active],
    level: u32,
) -> Result<Vec<Active>, Memory>
    requires few { size rules ≤ 16 }
    requires ascending { IsAscending (λ (a b : ℕ). a < b) sets.now }
    requires of_rules { AllByRecursion (λ s. Within s rules) sets.now }
    ensures { IfOk result (λ near.
        IsListing (IsNear rules removable forcible sets.now level) (λ a b. a < b) near.items) }
{
    let all = sets_of(alloc, rules)?;
    let fewest = fewest_changes(alloc, rules, removable, forcible, sets, &all)?;
    let most = most_needed(level);
    picked(alloc, &all, &fewest, most)
}
