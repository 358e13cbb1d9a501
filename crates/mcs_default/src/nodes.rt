//! What is told of the sets of defaults that have all that is taken, and nothing that is out.

ghost use Rattle.std.specs.Prelude.{◌≡◌, ◌<◌, ◌↔◌, ℕ, List, true, length, IsTrue, IfOk, IfSome};
ghost use Rattle.mcs_sets.specs.Sets.{has, Within};
ghost use Rattle.mcs_system.specs.Logic.{Entails};
ghost use Rattle.mcs_system.specs.Plain as plain;
ghost use Rattle.mcs_evidence.specs.Defaults.{generated};
ghost use Rattle.mcs_evidence.specs.Theories.{IsDefaultAt};
ghost use Rattle.mcs_default.specs.Asked.{IsSameTheory, IsSearchOf, AnswersSearch};
ghost use Rattle.mcs_default.specs.Nodes.{IsNode};
ghost use Rattle.mcs_default.specs.Searches.{IsAllowedBy, IsOpenAt, IsNextOf, IsGroundedSet};

use crate::known::{Node, known_closed, known_open};
use crate::questions::{allows, supports};
use crate::searching::Search;
use mcs_base::{Memory, Vars};
use std::alloc::Global;

/// Whether the one set supports the default at the index, and the other one does not block it.
fn applies(
    alloc: Global,
    search: &mut Search<'_>,
    supporting: Vars,
    allowing: Vars,
    index: u32,
) -> Result<bool, Memory>
    requires index { index < length search.old.theory.now.defaults.now }
    ensures { AnswersSearch search.old search.new result (λ b items.
        (d : plain.Default) → IsDefaultAt items index d → IsTrue b ↔ (Entails (generated items
        supporting) d.pre × IsAllowedBy (generated items allowing) d)) }
{
    if supports(alloc, search, supporting, index)? {
        return allows(alloc, search, allowing, index);
    }
    Ok(false)
}

/// Whether the default at the index leaves it open that a set between what is taken and `all`
/// generates an extension. If the default is taken, it is not blocked by what is taken, and it is
/// supported by `all`. If it is out, it was not found that each such set supports it and none
/// blocks it.
fn is_open(
    alloc: Global,
    search: &mut Search<'_>,
    taken: Vars,
    all: Vars,
    index: u32,
) -> Result<bool, Memory>
    requires index { index < length search.old.theory.now.defaults.now }
    requires within { Within taken all }
    ensures { AnswersSearch search.old search.new result (λ b items.
        IsTrue b ↔ IsOpenAt items taken all index) }
{
    if taken.has(index) {
        return applies(alloc, search, all, taken, index);
    }
    if all.has(index) {
        return Ok(true);
    }
    Ok(!applies(alloc, search, taken, all, index)?)
}

/// Whether the set has a number below this one.
fn has_below(set: Vars, count: usize) -> bool
    ensures { IsTrue result → (k : ℕ) × (k < count) × (has set k ≡ true) }
{
    match set.first() {
        Some(index) => (index as usize) < count,
        None => false,
    }
}

/// Whether each default leaves it open that a set between these two generates an extension. It is
/// searched for only where what is known of the two sets does not tell it.
pub(crate) fn are_open(alloc: Global, search: &mut Search<'_>, node: Node) -> Result<bool, Memory>
    requires { IsNode search.old node }
    ensures { AnswersSearch search.old search.new result (λ b items.
        IsTrue b ↔ ((k : ℕ) → k < length search.old.theory.now.defaults.now → IsOpenAt items
        node.taken.set node.all.set k)) }
{
    let Node { taken, all } = node;
    let defaults = search.theory.defaults;
    if has_below(known_closed(taken, all), defaults.len()) {
        return Ok(false);
    }
    let open = known_open(taken, all);
    for index in 0..defaults.len() {
        let place = index as u32;
        if !open.has(place) && !is_open(alloc, search, taken.set, all.set, place)? {
            return Ok(false);
        }
    }
    Ok(true)
}

/// The first default of those that are left which the set supports.
fn next_supported(
    alloc: Global,
    search: &mut Search<'_>,
    set: Vars,
    left: Vars,
) -> Result<Option<u32>, Memory>
    ensures kept { IsSameTheory search.old search.new }
    ensures left { IfOk result (λ next. IfSome next
        (λ k. (k < length search.old.theory.now.defaults.now) × IsTrue (has left k))) }
    ensures exact { IfOk result (λ next. (items : List plain.Item) → IsSearchOf items search.old
        → IsNextOf items set left next) }
{
    let defaults = search.theory.defaults;
    for index in 0..defaults.len() {
        let place = index as u32;
        if left.has(place) && supports(alloc, search, set, place)? {
            return Ok(Some(place));
        }
    }
    Ok(None)
}

/// Whether the prerequisites of the defaults of the set follow one after the other, each from the
/// facts and the consequents of those before it.
pub(crate) fn is_grounded(alloc: Global, search: &mut Search<'_>, set: Vars) -> Result<bool, Memory>
    ensures { AnswersSearch search.old search.new result (λ b items.
        IsTrue b ↔ IsGroundedSet items set) }
{
    let mut part = Vars::empty();
    while let Some(index) = next_supported(alloc, search, part, set.minus(part))? {
        part = part.with(index);
    }
    Ok(set.within(part))
}
