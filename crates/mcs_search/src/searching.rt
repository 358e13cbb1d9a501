//! The search: decisions, conflicts and restarts.

ghost use Rattle.std.specs.Prelude.{IfOk};
ghost use Rattle.mcs_engine.specs.States.{IsState};
ghost use Rattle.mcs_engine.specs.Stores.{IsGround, IsLater, IsLaterGround};
ghost use Rattle.mcs_engine.specs.Trails.{IsFalse};
ghost use Rattle.mcs_search.specs.Searches.{HasRun, IsEnd, IsSatSearch, IsTurned};

use crate::adding::attach;
use crate::order::Order;
use crate::part::search_recent;
use crate::running::run;
use mcs_base::Memory;
use mcs_engine::{State, analyse, back, decide, latest_of, learn, turn_of};
use std::alloc::Global;

/// The greatest number of restarts of a search.
const MOST_BEGINNINGS: u64 = 1 << 40;

/// The result of a turn. `Goes`: the search goes on, from a clause that is false or from none.
/// `Satisfied`: all clauses are satisfied. `Refuted`: the clause with this index is false at level
/// 0.
#[derive(Drop)]
pub(crate) enum Turn {
    Goes(Option<usize>),
    Satisfied,
    Refuted(usize),
}

/// Decides a literal without a value and propagates. If there is no such literal, all clauses are
/// satisfied.
fn choose(state: &mut State, order: &mut Order) -> Result<Turn, Memory>
    requires { HasRun state.old None }
    ensures later { IsLater state.old state.new }
    ensures turn { IfOk result (IsTurned state.old state.new) }
{
    let literal = match order.next(&state.trail) {
        Some(literal) => literal,
        None => match state.trail.first_free(1) {
            Some(literal) => literal,
            None => return Ok(Turn::Satisfied),
        },
    };
    decide(state, literal)?;
    Ok(Turn::Goes(run(state)?))
}

/// Raises the activity of the variables of the clauses with these numbers.
fn raise(state: &State, order: &mut Order, numbers: &[u64]) {
    for number in numbers {
        if *number > 0 && ((*number - 1) as usize) < state.clauses.len() {
            order.raise(state.clauses.row((*number - 1) as usize));
        }
    }
    order.decay();
}

/// Puts back into the order the variables that lose their value when the clause is learnt.
fn release(state: &State, order: &mut Order, literals: &[i64])
    requires { IsFalse state.now.trail.entries.items literals.now }
{
    let Some(latest) = latest_of(&state.trail, literals) else {
        return;
    };
    let turn = turn_of(&state.trail, latest);
    if let Some(reach) = state.levels.get(turn.level)
        && let Some(entries) = state.trail.entries.get(reach.entries..)
    {
        order.release(entries);
    }
}

/// Learns from the clause with this index, which is false, jumps back, and propagates.
fn turn_back(
    alloc: Global,
    state: &mut State,
    order: &mut Order,
    index: usize,
) -> Result<Turn, Memory>
    requires { HasRun state.old (Some index) }
    ensures later { IsLater state.old state.new }
    ensures turn { IfOk result (IsTurned state.old state.new) }
{
    let Some(reach) = state.levels.last() else {
        return Ok(Turn::Refuted(index));
    };
    let start = reach.entries;
    let step = analyse(alloc, &state.clauses, &state.trail, start, index)?;
    raise(state, order, &step.chain);
    release(state, order, step.clause.literals());
    if let Err(error) = learn(state, step.clause.literals(), &step.chain) {
        drop(step);
        return Err(error);
    }
    drop(step);
    Ok(Turn::Goes(run(state)?))
}

/// Puts back into the order the variables that have their values from levels above 0.
pub(crate) fn release_decided(state: &State, order: &mut Order) {
    if let Some(reach) = state.levels.first()
        && let Some(entries) = state.trail.entries.get(reach.entries..)
    {
        order.release(entries);
    }
}

/// Takes back all decisions, and puts their variables back into the order.
pub fn go_back(state: &mut State, order: &mut Order)
    requires { IsState state.old }
    ensures { IsLaterGround state.old state.new }
{
    release_decided(state, order);
    back(state, 0);
}

/// Restarts: takes back all decisions, and propagates.
pub(crate) fn begin_anew(state: &mut State, order: &mut Order) -> Result<Option<usize>, Memory>
    requires { IsSatSearch state.old }
    ensures later { IsLater state.old state.new }
    ensures run { IfOk result (HasRun state.new) }
{
    release_decided(state, order);
    back(state, 0);
    let found = run(state)?;
    Ok(found)
}

/// Restarts as `begin_anew` does. If the search is hard, what was learnt long ago is set aside
/// first for a search of its own, and what this one learns is learnt.
fn renew(state: &mut State, order: &mut Order) -> Result<Option<usize>, Memory>
    requires { IsSatSearch state.old }
    ensures later { IsLater state.old state.new }
    ensures run { IfOk result (HasRun state.new) }
{
    if !order.is_hard() {
        return begin_anew(state, order);
    }
    release_decided(state, order);
    back(state, 0);
    if search_recent(state, order)? {
        order.begin(&state.trail);
    } else {
        order.hurry();
    }
    attach(state)?;
    let found = run(state)?;
    Ok(found)
}

/// Takes a turn: learns from the clause that is false and jumps back, or decides if none is.
pub(crate) fn take_turn(
    alloc: Global,
    state: &mut State,
    order: &mut Order,
    found: Option<usize>,
) -> Result<Turn, Memory>
    requires { HasRun state.old found }
    ensures later { IsLater state.old state.new }
    ensures turn { IfOk result (IsTurned state.old state.new) }
{
    match found {
        Some(index) => turn_back(alloc, state, order, index),
        None => choose(state, order),
    }
}

/// Takes turns until all clauses are satisfied or one is false at level 0. Returns the index of the
/// latter. What was known before stays known: clauses are learnt, and none is added as given.
pub fn search(alloc: Global, state: &mut State, order: &mut Order) -> Result<Option<usize>, Memory>
    requires { IsGround state.old }
    ensures later { IsLater state.old state.new }
    ensures end { IfOk result (IsEnd state.new) }
{
    attach(state)?;
    let mut found = run(state)?;
    order.begin(&state.trail);
    order.count_anew();
    let mut left = MOST_BEGINNINGS;
    loop {
        if left > 0 && found.is_none() && order.is_due() {
            left -= 1;
            found = renew(state, order)?;
            continue;
        }
        match take_turn(alloc, state, order, found)? {
            Turn::Goes(next) => found = next,
            Turn::Satisfied => return Ok(None),
            Turn::Refuted(index) => return Ok(Some(index)),
        }
    }
}
