//! Unit propagation with two watched literals.

ghost use Rattle.std.specs.Prelude.{◌≡◌, ◌≢◌, ℕ, ℤ, ◌≤◌, ◌⊎◌, List, neg_ℤ, length, slice_get};
ghost use Rattle.std.specs.Prelude.{MatchOption, IfOk};
ghost use Rattle.std.specs.Bool.{MatchBool};
ghost use Rattle.mcs_base.specs.Listings.{IsAmong};
ghost use Rattle.mcs_trace.specs.Clauses.{place};
ghost use Rattle.mcs_engine.specs.Extending.{Extends, IsTrail};
ghost use Rattle.mcs_engine.specs.Lists.{list_at};
ghost use Rattle.mcs_engine.specs.Trails.{IsClauseOver, IsFalseAt, IsOn, IsClauseSatisfied};
ghost use Rattle.mcs_engine.specs.Watching.{AreSettled, AreVisited, AreWatched, IsLong};
ghost use Rattle.mcs_engine.specs.Watching.{IsReached, IsClauseSeen, KeepsWatches};

use crate::examine::{Finding, examine};
use crate::trail::Trail;
use crate::watches::{Pair, Watches};
use mcs_base::{Memory, Rows};
use mcs_trace::place;

/// The result of visiting a clause after one of its literals became false. `Satisfied`: a literal
/// of it is true. `Gone`: it does not watch the literal any more. `Conflict`: all its literals are
/// false.
#[derive(Drop)]
pub(crate) enum Seen {
    Satisfied,
    Gone,
    Conflict,
}

/// A literal of the clause, other than `other`, that is not false.
pub fn open_literal(trail: &Trail, literals: &[i64], other: i64) -> Option<i64>
    requires { IsClauseOver trail.now.positions.items literals.now }
    ensures { MatchOption result
        ((k : ℤ) → IsAmong k literals.now → (k ≡ other) ⊎ IsOn trail.now.entries.items (neg_ℤ k))
        (λ l. IsAmong l literals.now × (l ≢ other) × ¬ IsOn trail.now.entries.items (neg_ℤ l)) }
{
    for literal in literals {
        if *literal != other && !trail.is_false(*literal) {
            return Some(*literal);
        }
    }
    None
}

/// Visits the clause with this index, which is in the list of the literal. The literal is false.
fn visit(
    clauses: &Rows<i64>,
    watches: &mut Watches,
    trail: &mut Trail,
    level: usize,
    index: usize,
    literal: i64,
) -> Result<Seen, Memory>
    requires trail { IsTrail clauses.now trail.old }
    requires watched { AreWatched clauses.now watches.old }
    requires off { IsOn trail.old.entries.items (neg_ℤ literal) }
    ensures extends { Extends clauses.now level trail.old trail.new }
    ensures kept { KeepsWatches clauses.now watches.old watches.new trail.old.entries.items }
    ensures list { list_at watches.new.lists (place literal)
        ≡ list_at watches.old.lists (place literal) }
    ensures seen { IfOk result (IsClauseSeen clauses.now watches.new trail.new.entries.items index
        literal) }
{
    if index >= watches.pairs.len() {
        return Ok(Seen::Gone);
    }
    let Some(other) = watches.pairs.get(index).other(literal) else {
        return Ok(Seen::Gone);
    };
    if trail.is_true(other) {
        return Ok(Seen::Satisfied);
    }
    if let Some(open) = open_literal(trail, clauses.row(index), other) {
        watches.lists.add(open, index)?;
        let pair = Pair {
            first: other,
            second: open,
        };
        watches.pairs.set(index, pair);
        return Ok(Seen::Gone);
    }
    if trail.is_false(other) {
        return Ok(Seen::Conflict);
    }
    trail.push(other, index as u64 + 1, level)?;
    Ok(Seen::Satisfied)
}

/// Visits the clauses that watch the literal, which is false. Returns the index of a clause that is
/// false, if one is found.
fn visit_list(
    clauses: &Rows<i64>,
    watches: &mut Watches,
    trail: &mut Trail,
    level: usize,
    literal: i64,
) -> Result<Option<usize>, Memory>
    requires trail { IsTrail clauses.now trail.old }
    requires watched { AreWatched clauses.now watches.old }
    requires off { IsOn trail.old.entries.items (neg_ℤ literal) }
    ensures extends { Extends clauses.now level trail.old trail.new }
    ensures kept { KeepsWatches clauses.now watches.old watches.new trail.old.entries.items }
    ensures found { IfOk result (λ found. MatchOption found
        (AreVisited clauses.now watches.new trail.new.entries.items literal)
        (IsFalseAt clauses.now trail.new.entries.items)) }
{
    let list = place(literal) as usize;
    let mut at = 0;
    while at < watches.lists.get(list).len() {
        let index = watches.lists.get(list)[at];
        match visit(clauses, watches, trail, level, index, literal)? {
            Seen::Satisfied => at += 1,
            Seen::Gone => {
                watches.lists.swap_remove(list, at);
            }
            Seen::Conflict => return Ok(Some(index)),
        }
    }
    Ok(None)
}

/// Visits the clauses that watch the literals that became false from the place `from` on, and those
/// that then become false. Returns the index of a clause that is false, if one is found.
pub fn visit_from(
    clauses: &Rows<i64>,
    watches: &mut Watches,
    trail: &mut Trail,
    level: usize,
    from: &mut usize,
) -> Result<Option<usize>, Memory>
    requires trail { IsTrail clauses.now trail.old }
    requires watched { AreWatched clauses.now watches.old }
    requires bound { from.old ≤ length trail.old.entries.items }
    ensures extends { Extends clauses.now level trail.old trail.new }
    ensures kept { KeepsWatches clauses.now watches.old watches.new trail.old.entries.items }
    ensures bound { from.new ≤ length trail.new.entries.items }
    ensures now { (settled : ℕ)
        → IsReached clauses.now watches.old trail.old.entries.items
        (record { entries = length trail.old.entries.items; visited = from.old; settled = settled })
        → IsReached clauses.now watches.new trail.new.entries.items
        (record {
          entries = length trail.new.entries.items;
          visited = from.new;
          settled = settled;
        }) }
    ensures found { IfOk result (λ found. MatchOption found
        (from.new ≡ length trail.new.entries.items)
        (IsFalseAt clauses.now trail.new.entries.items)) }
{
    while *from < trail.entries.len() {
        let literal = trail.negated(*from);
        let found = visit_list(clauses, watches, trail, level, literal)?;
        if found.is_some() {
            return Ok(found);
        }
        *from += 1;
    }
    Ok(None)
}

/// If all literals but one of the clause with this index are false, makes that one true. Returns
/// whether all are false.
pub fn settle(
    clauses: &Rows<i64>,
    trail: &mut Trail,
    level: usize,
    index: usize,
) -> Result<bool, Memory>
    requires trail { IsTrail clauses.now trail.old }
    ensures extends { Extends clauses.now level trail.old trail.new }
    ensures found { IfOk result (λ found. MatchBool found
        (IsFalseAt clauses.now trail.new.entries.items index)
        ((c : List ℤ) → slice_get clauses.now index ≡ Some c → ¬ IsLong c
        → IsClauseSatisfied trail.new.entries.items c)) }
{
    if index >= clauses.len() {
        return Ok(false);
    }
    match examine(trail, clauses.row(index)) {
        Finding::Open => Ok(false),
        Finding::Forced(literal) => {
            trail.push(literal, index as u64 + 1, level)?;
            Ok(false)
        }
        Finding::Conflict => Ok(true),
    }
}

/// Propagates through the clauses with the indices from `from` on. Returns the index of a clause
/// that is false, if one is found.
pub fn settle_from(
    clauses: &Rows<i64>,
    indices: &[usize],
    trail: &mut Trail,
    level: usize,
    from: &mut usize,
) -> Result<Option<usize>, Memory>
    requires trail { IsTrail clauses.now trail.old }
    ensures extends { Extends clauses.now level trail.old trail.new }
    ensures settled { AreSettled clauses.now indices.now trail.new.entries.items from.old from.new }
    ensures bound { from.old ≤ length indices.now → from.new ≤ length indices.now }
    ensures found { IfOk result (λ found. MatchOption found
        (length indices.now ≤ from.new)
        (IsFalseAt clauses.now trail.new.entries.items)) }
{
    while *from < indices.len() {
        let index = indices[*from];
        if settle(clauses, trail, level, index)? {
            return Ok(Some(index));
        }
        *from += 1;
    }
    Ok(None)
}
