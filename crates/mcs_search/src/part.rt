//! A search over some of the clauses. What it learns is learnt by the whole.

ghost use Rattle.std.specs.Prelude.{◌≡◌, ◌+◌, ◌<◌, length, IfOk, OnOk};
ghost use Rattle.mcs_search.specs.Parts.{IsGathered, IsPartState};
ghost use Rattle.mcs_engine.specs.States.{IsState};
ghost use Rattle.mcs_engine.specs.Stores.{IsGround, IsLater, IsLaterGround};

use crate::adding::{add, attach, push_unwatched};
use crate::order::Order;
use crate::running::run;
use crate::searching::{Turn, begin_anew, go_back, take_turn};
use crate::trace::renumbered;
use mcs_base::Memory;
use mcs_engine::{State, is_marked, mark};
use std::alloc::Global;

/// The greatest number of turns of the search before any question.
const MOST_TURNS: usize = 1 << 16;

/// The greatest number of literals of a learnt clause that is never set aside.
const FEW_LITERALS: usize = 6;

/// How many of the last learnt clauses are searched together with the given ones.
const MOST_RECENT: usize = 1000;

/// Some clauses of a state, over its variables, and the number that each has in the state.
#[derive(Drop)]
pub(crate) struct Part {
    pub state: State,
    pub numbers: Vec<u64>,
}

/// Adds the clause with this index to the part.
fn take_in(part: &mut Part, whole: &State, index: usize) -> Result<(), Memory>
    requires gathered { IsGathered whole.now part.old.state part.old.numbers.items }
    requires within { index < length whole.now.clauses }
    ensures { OnOk result (IsGathered whole.now part.new.state part.new.numbers.items) }
{
    prove!(index < whole.clauses.len());
    add(&mut part.state, whole.clauses.row(index))?;
    part.numbers.push(index as u64 + 1)?;
    Ok(())
}

/// Adds to the part the reasons of the literals on the trail.
fn take_reasons(part: &mut Part, whole: &State) -> Result<(), Memory>
    requires { IsGathered whole.now part.old.state part.old.numbers.items }
    ensures { OnOk result (IsGathered whole.now part.new.state part.new.numbers.items) }
{
    for entry in &whole.trail.entries {
        if let Some(index) = entry.reason.checked_sub(1)
            && (index as usize) < whole.clauses.len()
        {
            take_in(part, whole, index as usize)?;
        }
    }
    Ok(())
}

/// Whether the clause with this index is taken into the part. It has to watch something and to have
/// no variable that is left out. If recent clauses are marked, it also has to be given, short, or
/// one of these.
fn is_taken(whole: &State, left_out: &[bool], recent: &[bool], index: usize) -> bool
    requires whole { IsState whole.now }
    requires paired { index < length whole.now.watches.pairs }
{
    if whole.watches.pairs.get(index).first == 0 {
        return false;
    }
    let literals = whole.clauses.row(index);
    let is_old = !recent.is_empty() && !is_marked(recent, index);
    if is_old && literals.len() > FEW_LITERALS && !whole.chains.row(index).is_empty() {
        return false;
    }
    !literals.iter().any(|literal| is_marked(left_out, literal.unsigned_abs() as usize))
}

/// Adds to the part the clauses for which `is_taken` holds.
fn take_some(
    part: &mut Part,
    whole: &State,
    left_out: &[bool],
    recent: &[bool],
) -> Result<(), Memory>
    requires { IsGathered whole.now part.old.state part.old.numbers.items }
    ensures { OnOk result (IsGathered whole.now part.new.state part.new.numbers.items) }
{
    for index in 0..whole.watches.pairs.len() {
        if is_taken(whole, left_out, recent, index) {
            take_in(part, whole, index)?;
        }
    }
    Ok(())
}

/// Adds to the part the reasons of the literals on the trail and the clauses for which `is_taken`
/// holds.
fn take_all(
    part: &mut Part,
    whole: &State,
    left_out: &[bool],
    recent: &[bool],
) -> Result<(), Memory>
    requires { IsGathered whole.now part.old.state part.old.numbers.items }
    ensures { OnOk result (IsGathered whole.now part.new.state part.new.numbers.items) }
{
    take_reasons(part, whole)?;
    take_some(part, whole, left_out, recent)
}

/// The part with the reasons of the literals on the trail and the clauses for which `is_taken`
/// holds.
fn part_of(alloc: Global, whole: &State, left_out: &[bool], recent: &[bool]) -> Result<Part, Memory>
    requires { IsState whole.now }
    ensures { IfOk result (λ p. IsGathered whole.now p.state p.numbers.items) }
{
    let vars = whole.trail.positions.len() as u64 - 1;
    let state = State::new(alloc, vars)?;
    let mut part = Part {
        state,
        numbers: Vec::new(alloc),
    };
    match take_all(&mut part, whole, left_out, recent) {
        Ok(()) => Ok(part),
        Err(error) => {
            drop(part);
            Err(error)
        }
    }
}

/// Takes at most `turns` turns, from level 0. Returns whether the search has then ended.
fn explore(
    alloc: Global,
    state: &mut State,
    order: &mut Order,
    turns: usize,
) -> Result<bool, Memory>
    requires { IsGround state.old }
    ensures { IsLater state.old state.new }
{
    attach(state)?;
    let mut found = run(state)?;
    order.begin(&state.trail);
    for _ in 0..turns {
        if found.is_none() && order.is_due() {
            found = begin_anew(state, order)?;
            continue;
        }
        match take_turn(alloc, state, order, found)? {
            Turn::Goes(next) => found = next,
            Turn::Satisfied | Turn::Refuted(_) => return Ok(true),
        }
    }
    Ok(false)
}

/// Learns the next clause of the part, by the numbers of the clauses from which it is resolved.
fn adopt_next(
    alloc: Global,
    state: &mut State,
    part: &State,
    numbers: &mut Vec<u64>,
) -> Result<(), Memory>
    requires ground { IsGround state.old }
    requires part { IsPartState state.old part.now numbers.old.items }
    requires next { length numbers.old.items < length part.now.clauses }
    ensures later { IsLaterGround state.old state.new }
    ensures part { OnOk result (IsPartState state.new part.now numbers.new.items) }
    ensures next { OnOk result (length numbers.new.items ≡ length numbers.old.items + 1) }
{
    let index = numbers.len();
    let chain = renumbered(alloc, numbers, part.chains.row(index))?;
    let learnt = push_unwatched(state, part.clauses.row(index), &chain);
    drop(chain);
    learnt?;
    numbers.push(state.clauses.len() as u64)?;
    Ok(())
}

/// Learns the clauses that the part has learnt.
fn adopt(
    alloc: Global,
    state: &mut State,
    part: &State,
    numbers: &mut Vec<u64>,
) -> Result<(), Memory>
    requires ground { IsGround state.old }
    requires part { IsPartState state.old part.now numbers.old.items }
    ensures later { IsLaterGround state.old state.new }
    ensures all { OnOk result (IsGathered state.new part.now numbers.new.items) }
{
    while numbers.len() < part.clauses.len() {
        adopt_next(alloc, state, part, numbers)?;
    }
    Ok(())
}

/// Learns the clauses that the part has learnt, unless memory ran out while it was explored.
/// Returns whether its search has ended.
fn adopt_explored(
    alloc: Global,
    state: &mut State,
    part: &mut Part,
    explored: Result<bool, Memory>,
) -> Result<bool, Memory>
    requires ground { IsGround state.old }
    requires part { IsPartState state.old part.old.state part.old.numbers.items }
    ensures { IsLaterGround state.old state.new }
{
    let ended = explored?;
    adopt(alloc, state, &part.state, &mut part.numbers)?;
    Ok(ended)
}

/// Searches some of the clauses for at most `turns` turns, at level 0, and learns what this search
/// learns. Returns whether it has ended. Clauses with a variable that is left out are not among
/// them. If recent clauses are marked, long learnt clauses that are not marked are not either.
fn search_part(
    state: &mut State,
    order: &mut Order,
    left_out: &[bool],
    recent: &[bool],
    turns: usize,
) -> Result<bool, Memory>
    requires { IsGround state.old }
    ensures { IsLaterGround state.old state.new }
{
    let alloc = *state.levels.allocator();
    let mut part = part_of(alloc, state, left_out, recent)?;
    let explored = explore(alloc, &mut part.state, order, turns);
    go_back(&mut part.state, order);
    let ended = adopt_explored(alloc, state, &mut part, explored);
    drop(part);
    ended
}

/// If variables are left out, searches the clauses that have none of these, before any question,
/// and learns what this search learns.
pub fn search_left(state: &mut State, order: &mut Order, left_out: &[bool]) -> Result<(), Memory>
    requires { IsGround state.old }
    ensures { IsLaterGround state.old state.new }
{
    if !left_out.is_empty() {
        search_part(state, order, left_out, &[], MOST_TURNS)?;
    }
    Ok(())
}

/// Marks the last learnt clauses, at most `most`, and those from which they were resolved.
fn recent_of(alloc: Global, state: &State, most: usize) -> Result<Vec<bool>, Memory> {
    let mut marks = Vec::new(alloc);
    for index in state.chains.last_from(most)..state.chains.len() {
        mark(&mut marks, index)?;
        for number in state.chains.row(index) {
            mark(&mut marks, number.saturating_sub(1) as usize)?;
        }
    }
    Ok(marks)
}

/// Searches the given clauses with the recently learnt ones for some turns, at level 0, and learns
/// what this search learns. Returns whether it has ended.
pub(crate) fn search_recent(state: &mut State, order: &mut Order) -> Result<bool, Memory>
    requires { IsGround state.old }
    ensures { IsLaterGround state.old state.new }
{
    let alloc = *state.levels.allocator();
    let recent = recent_of(alloc, state, MOST_RECENT)?;
    let turns = order.next_turns();
    let ended = search_part(state, order, &[], &recent, turns);
    drop(recent);
    ended
}
