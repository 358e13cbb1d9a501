//! Adding and removing given clauses at level 0, where nothing is decided.

ghost use Rattle.std.specs.Prelude.{◌≡◌, ◌+◌, ◌<◌, ◌≤◌, ◌^◌, [], ◌⊎◌, neg_ℤ, length};
ghost use Rattle.std.specs.Prelude.{take, IsTrue, MatchOption, OnOk, OnErr, IfSome, Some};
ghost use Rattle.mcs_trace.specs.Clauses.{IsClause, IsLiteral};
ghost use Rattle.mcs_trace.specs.Traces.{IsChainResolvent};
ghost use Rattle.mcs_engine.specs.Trails.{IsClauseOver, IsClauseSatisfied, IsOn, IsOnBelow};
ghost use Rattle.mcs_engine.specs.Watching.{ArePair, AreUnwatched, IsFreshPair, IsLong};
ghost use Rattle.mcs_engine.specs.States.{IsFull, IsState, IsWider, KeepsLevels, KeepsLiterals};
ghost use Rattle.mcs_engine.specs.States.{KeepsTrail, SameRoom};
ghost use Rattle.mcs_engine.specs.Stores.{IsAdded, IsGround, SameStore};

use crate::order::Order;
use mcs_base::Memory;
use mcs_engine::{Kept, NOTHING, Pair, Pairs, State, Trail, open_literal, settle};

/// The pair of literals that an added clause watches, and for how many literals of the trail the
/// clauses are still visited.
#[derive(Clone, Copy)]
pub(crate) struct Beginning {
    pub pair: Option<Pair>,
    pub visited: usize,
}

/// Two literals of the clause that are not false, if it has two.
fn open_pair(trail: &Trail, literals: &[i64]) -> Option<Pair>
    requires { IsClauseOver trail.now.positions.items literals.now }
    ensures { IfSome result (λ p. ArePair literals.now p
        × (¬ IsOn trail.now.entries.items (neg_ℤ p.first))
        × (¬ IsOn trail.now.entries.items (neg_ℤ p.second))) }
{
    let first = open_literal(trail, literals, 0)?;
    let second = open_literal(trail, literals, first)?;
    Some(Pair { first, second })
}

/// The first two literals, if there are two.
fn first_pair(literals: &[i64]) -> Option<Pair>
    requires { IsClause literals.now }
    ensures { MatchOption result (¬ IsLong literals.now) (ArePair literals.now) }
{
    match literals {
        [first, second, ..] => Some(Pair {
            first: *first,
            second: *second,
        }),
        _ => None,
    }
}

/// The place at which the literal became false, if it comes before `place`; otherwise `place`.
fn false_before(trail: &Trail, literal: i64, place: usize) -> usize
    ensures low { result ≤ place }
    ensures fresh { IsLiteral literal → ¬ IsOnBelow trail.now.entries.items result (neg_ℤ literal) }
{
    let variable = literal.unsigned_abs() as usize;
    if variable == 0 || variable >= trail.positions.len() || !trail.is_false(literal) {
        return place;
    }
    match trail.position(literal) {
        Some(position) => position.min(place),
        None => place,
    }
}

/// For how many of the first `visited` literals the clauses are still visited, if a further clause
/// watches the pair.
fn fresh_below(trail: &Trail, pair: Pair, visited: usize) -> usize
    requires { IsLiteral pair.first × IsLiteral pair.second }
    ensures low { result ≤ visited }
    ensures fresh { IsFreshPair trail.now.entries.items result (Some pair) }
{
    let first = false_before(trail, pair.first, visited);
    false_before(trail, pair.second, first)
}

/// How an added clause begins. If it has two literals that are not false, it watches these, and
/// what was visited stays visited. Otherwise only what comes before the first false literal that it
/// watches stays visited.
fn beginning_of(trail: &Trail, visited: usize, literals: &[i64]) -> Beginning
    requires clause { IsClauseOver trail.now.positions.items literals.now }
    requires bound { visited ≤ length trail.now.entries.items }
    ensures fits { MatchOption result.pair (¬ IsLong literals.now) (ArePair literals.now) }
    ensures low { result.visited ≤ visited }
    ensures fresh { IsFreshPair trail.now.entries.items result.visited result.pair }
{
    match open_pair(trail, literals) {
        Some(pair) => Beginning {
            pair: Some(pair),
            visited,
        },
        None => match first_pair(literals) {
            Some(pair) => Beginning {
                pair: Some(pair),
                visited: fresh_below(trail, pair, visited),
            },
            None => Beginning {
                pair: None,
                visited,
            },
        },
    }
}

/// Adds a clause with its chain. It watches nothing yet.
pub fn push_unwatched(state: &mut State, literals: &[i64], chain: &[u64]) -> Result<(), Memory>
    requires state { IsState state.old }
    requires clause { IsClauseOver state.old.trail.positions.items literals.now }
    requires chain { (chain.now ≡ []) ⊎ IsChainResolvent state.old.clauses chain.now literals.now }
    ensures kept { KeepsTrail state.old state.new }
    ensures pairs { state.new.watches.pairs ≡ state.old.watches.pairs }
    ensures ok { OnOk result (IsAdded state.old state.new literals.now chain.now) }
    ensures err { OnErr result (SameStore state.old state.new) }
{
    let count = state.clauses.len();
    state.clauses.push(literals)?;
    if let Err(error) = state.chains.push(chain) {
        state.clauses.truncate(count);
        return Err(error);
    }
    Ok(())
}

/// Adds a given clause at level 0. It watches nothing yet.
pub fn add(state: &mut State, literals: &[i64]) -> Result<(), Memory>
    requires ground { IsGround state.old }
    requires clause { IsClauseOver state.old.trail.positions.items literals.now }
    ensures kept { KeepsTrail state.old state.new }
    ensures ok { OnOk result (IsAdded state.old state.new literals.now []) }
    ensures err { OnErr result (SameStore state.old state.new) }
{
    push_unwatched(state, literals, &[])
}

/// Makes the next clause watch two of its literals, if it has two.
pub fn attach_next(state: &mut State) -> Result<(), Memory>
    requires ground { IsGround state.old }
    requires next { length state.old.watches.pairs < length state.old.clauses }
    ensures same { KeepsLiterals state.old state.new }
    ensures marked { state.new.kept ≡ state.old.kept }
    ensures next { OnOk result (length state.new.watches.pairs
        ≡ length state.old.watches.pairs + 1) }
{
    let literals = state.clauses.row(state.watches.pairs.len());
    let beginning = beginning_of(&state.trail, state.visited, literals);
    prove!(state.watches.pairs.len() < state.clauses.len());
    state.watches.push(beginning.pair)?;
    state.visited = beginning.visited;
    Ok(())
}

/// Makes each clause that watches nothing yet watch two of its literals, at level 0.
pub fn attach(state: &mut State) -> Result<(), Memory>
    requires { IsGround state.old }
    ensures same { KeepsLiterals state.old state.new }
    ensures full { OnOk result (IsFull state.new) }
{
    while state.watches.pairs.len() < state.clauses.len() {
        attach_next(state)?;
    }
    Ok(())
}

/// Visits the clauses that watch nothing yet, from the last one back, and makes the last literal of
/// each true if all others are false. The clauses of a whole formula come after those of its parts.
/// Returns the index of a clause that is false, if one is found.
fn sweep(state: &mut State) -> Result<Option<usize>, Memory>
    requires { IsGround state.old }
    ensures { KeepsLevels state.old state.new }
{
    let mut index = state.clauses.len();
    while index > state.watches.pairs.len() {
        index -= 1;
        if settle(&state.clauses, &mut state.trail, 0, index)? {
            return Ok(Some(index));
        }
    }
    Ok(None)
}

/// Whether the clause has at least two literals, and one of them is true.
fn is_spared(trail: &Trail, literals: &[i64]) -> bool
    requires { IsClauseOver trail.now.positions.items literals.now }
    ensures { IsTrue result
        → IsLong literals.now × IsClauseSatisfied trail.now.entries.items literals.now }
{
    if literals.len() < 2 {
        return false;
    }
    for literal in literals {
        if trail.is_true(*literal) {
            return true;
        }
    }
    false
}

/// The same as `attach_next`, but a clause with a true literal watches nothing.
fn attach_open(state: &mut State) -> Result<(), Memory>
    requires ground { IsGround state.old }
    requires next { length state.old.watches.pairs < length state.old.clauses }
    requires all { state.old.kept.entries ≡ length state.old.trail.entries.items }
    ensures same { KeepsLiterals state.old state.new }
    ensures marked { state.new.kept ≡ state.old.kept }
    ensures next { OnOk result (length state.new.watches.pairs
        ≡ length state.old.watches.pairs + 1) }
{
    let index = state.watches.pairs.len();
    if is_spared(&state.trail, state.clauses.row(index)) {
        prove!(state.watches.pairs.len() < state.clauses.len());
        state.watches.pairs.push_none()?;
    } else {
        attach_next(state)?;
    }
    Ok(())
}

/// Makes true, at level 0, what `sweep` finds in the clauses that watch nothing yet. Then makes
/// those that are not satisfied watch two of their literals.
pub fn settle_all(state: &mut State) -> Result<(), Memory>
    requires { IsGround state.old }
    ensures same { KeepsLevels state.old state.new }
    ensures full { OnOk result (IsFull state.new) }
{
    let _found = sweep(state)?;
    keep(state);
    while state.watches.pairs.len() < state.clauses.len() {
        attach_open(state)?;
    }
    Ok(())
}

/// Keeps how much is visited now, at level 0. It is used when later clauses are removed.
pub fn keep(state: &mut State)
    requires { IsGround state.old }
    ensures same { KeepsLiterals state.old state.new }
    ensures all { state.new.kept.entries ≡ length state.old.trail.entries.items }
    ensures pairs { state.new.watches.pairs ≡ state.old.watches.pairs }
{
    state.kept = Kept {
        count: state.watches.pairs.len(),
        entries: state.trail.entries.len(),
        visited: state.visited,
    };
}

/// How many of the first `most` literals come before the first one that makes a literal false which
/// a clause from the index `from` on watches.
fn unwatched(trail: &Trail, pairs: &Pairs, from: usize, most: usize) -> usize
    ensures low { result ≤ most }
    ensures fresh { AreUnwatched trail.now.entries.items pairs.now from (length pairs.now) result }
{
    let mut place = most;
    for index in from..pairs.len() {
        let pair = pairs.get(index);
        place = false_before(trail, pair.first, place);
        place = false_before(trail, pair.second, place);
    }
    place
}

/// For how many literals the clauses are still visited, of those that were kept as visited.
fn still_visited(trail: &Trail, pairs: &Pairs, kept: Kept) -> usize
    ensures low { result ≤ kept.visited }
    ensures fresh { AreUnwatched trail.now.entries.items pairs.now kept.count
        (length pairs.now) result }
{
    if kept.visited == 0 {
        return 0;
    }
    unwatched(trail, pairs, kept.count, kept.visited)
}

/// Keeps the first `stays` literals of the trail, and releases the variables of the others. Returns
/// for how many literals the clauses are still visited.
fn leave(trail: &mut Trail, order: &mut Order, stays: usize, visited: usize) -> usize
    requires { stays ≤ length trail.old.entries.items }
    ensures entries { trail.new.entries.items ≡ take stays trail.old.entries.items }
    ensures positions { trail.new.positions.items ≡ trail.old.positions.items }
    ensures visited { (result ≡ 0)
        ⊎ ((length trail.old.entries.items ≤ stays) × (result ≡ visited)) }
{
    if stays < trail.entries.len() {
        order.release(&trail.entries[stays..]);
        trail.back(stays);
        0
    } else {
        visited
    }
}

/// Keeps the first `count` clauses, at level 0. Takes back the literals from the first one on whose
/// reason is removed, and releases their variables.
pub fn cut(state: &mut State, order: &mut Order, count: usize)
    requires { IsGround state.old }
    ensures ground { IsGround state.new }
    ensures positions { SameRoom state.old state.new }
    ensures clauses { state.new.clauses ≡ take count state.old.clauses }
    ensures chains { state.new.chains ≡ take count state.old.chains }
{
    let stays = state.trail.explained_within(count);
    let visited = leave(&mut state.trail, order, stays, state.visited);
    state.settled = 0;
    state.clauses.truncate(count);
    state.chains.truncate(count);
    if state.kept.entries > stays {
        state.watches.clear();
        state.kept = NOTHING;
        state.visited = 0;
        return;
    }
    state.watches.cut(count);
    state.kept.count = state.kept.count.min(count);
    state.visited = visited.max(still_visited(&state.trail, &state.watches.pairs, state.kept));
}

/// Adds a variable, which occurs in no clause yet. If memory runs out, none is added.
pub fn widen(state: &mut State) -> Result<(), Memory>
    requires state { IsState state.old }
    requires fits { length state.old.trail.positions.items < 2 ^ 63 }
    ensures wider { IsWider state.old state.new }
    ensures ok { OnOk result (length state.new.trail.positions.items
        ≡ length state.old.trail.positions.items + 1) }
    ensures err { OnErr result (SameRoom state.old state.new) }
{
    state.trail.widen()?;
    Ok(())
}
