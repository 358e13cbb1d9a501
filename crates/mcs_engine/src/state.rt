//! The state of a solver.

ghost use Rattle.std.specs.Prelude.{◌≡◌, ◌<◌, ◌≤◌, ◌^◌, ◌++◌, ◌∷◌, [], length};
ghost use Rattle.std.specs.Prelude.{IfOk, OnOk, OnErr, IfSome};
ghost use Rattle.mcs_trace.specs.Clauses.{IsLiteral};
ghost use Rattle.mcs_trace.specs.Traces.{IsChainResolvent};
ghost use Rattle.mcs_engine.specs.Lists.{KeepsLists};
ghost use Rattle.mcs_engine.specs.Trails.{IsFalse, IsFree};
ghost use Rattle.mcs_engine.specs.Watching.{IsPushed, SameWatched};
ghost use Rattle.mcs_engine.specs.States.{IsBack, IsBlank, IsDecided, IsLearntBack};
ghost use Rattle.mcs_engine.specs.States.{IsOfLastLevel, IsReady, IsState, IsTurn, IsUnchanged};
ghost use Rattle.mcs_engine.specs.States.{KeepsClauses};

use crate::chains::Chains;
use crate::latest::{Latest, latest_of};
use crate::trail::Trail;
use crate::watches::{Pair, Watches};
use mcs_base::{Memory, Rows};
use std::alloc::Global;

/// How far propagation had come when a level began: how many literals were true, for how many of
/// them the clauses that watch their negation were visited, and how many short clauses were
/// settled.
#[derive(Clone, Copy)]
pub struct Reach {
    pub entries: usize,
    pub visited: usize,
    pub settled: usize,
}

/// How far propagation had come, at level 0, when clauses were settled: how many clauses there
/// were, how many literals were true, and for how many of these the clauses that watch their
/// negation were visited.
#[derive(Clone, Copy)]
pub struct Kept {
    pub count: usize,
    pub entries: usize,
    pub visited: usize,
}

/// The value if nothing is kept.
pub const NOTHING: Kept = Kept {
    count: 0,
    entries: 0,
    visited: 0,
};

/// The state of a solver. It has the clauses, with the chains of those that were learnt; the trail
/// of true literals; the watched literals; and the reach of each level above 0. It also has for how
/// many true literals the clauses were visited, how many short clauses were settled, and what is
/// kept of this for when clauses are removed.
pub struct State {
    pub clauses: Rows<i64>,
    pub chains: Chains,
    pub trail: Trail,
    pub watches: Watches,
    pub levels: Vec<Reach>,
    pub visited: usize,
    pub settled: usize,
    pub kept: Kept,
}

impl Drop for State {
    fn drop(self) {
        let State {
            clauses: _,
            chains: _,
            trail: _,
            watches: _,
            levels: _,
            visited: _,
            settled: _,
            kept: _,
        } = self;
    }
}

impl State {
    /// The state without clauses, over the variables 1 to `vars`.
    pub fn new(alloc: Global, vars: u64) -> Result<State, Memory>
        requires { vars < 2 ^ 63 }
        ensures { IfOk result (IsBlank vars) }
    {
        let trail = Trail::new(alloc, vars)?;
        Ok(State {
            clauses: Rows::new(alloc),
            chains: Chains::new(alloc),
            trail,
            watches: Watches::new(alloc),
            levels: Vec::new(alloc),
            visited: 0,
            settled: 0,
            kept: NOTHING,
        })
    }
}

/// Appends a clause with its chain. It watches the pair; without a pair it has to be a clause of
/// fewer than two literals.
pub(crate) fn push_clause(
    clauses: &mut Rows<i64>,
    chains: &mut Chains,
    watches: &mut Watches,
    literals: &[i64],
    chain: &[u64],
    pair: Option<Pair>,
) -> Result<(), Memory>
    requires pairs { length watches.old.pairs ≡ length clauses.old }
    requires chains { length chains.old ≡ length clauses.old }
    requires literals { IfSome pair (λ p. IsLiteral p.first × IsLiteral p.second) }
    ensures clauses { OnOk result (clauses.new ≡ clauses.old ++ literals.now ∷ []) }
    ensures chains { OnOk result (chains.new ≡ chains.old ++ chain.now ∷ []) }
    ensures pushed { OnOk result (IsPushed watches.old watches.new pair) }
    ensures watches { KeepsLists watches.old.lists watches.new.lists }
    ensures err_clauses { OnErr result (clauses.new ≡ clauses.old) }
    ensures err_chains { OnErr result (chains.new ≡ chains.old) }
    ensures err_watches { OnErr result (SameWatched watches.old watches.new) }
{
    let count = clauses.len();
    clauses.push(literals)?;
    if let Err(error) = chains.push(chain) {
        clauses.truncate(count);
        return Err(error);
    }
    prove!(watches.pairs.len() < clauses.len());
    if let Err(error) = watches.push(pair) {
        clauses.truncate(count);
        chains.truncate(count);
        return Err(error);
    }
    Ok(())
}

/// Decides the literal: opens a level and makes it true. It must have no value.
pub fn decide(state: &mut State, literal: i64) -> Result<(), Memory>
    requires state { IsState state.old }
    requires free { IsFree state.old.trail.entries.items state.old.trail.positions.items literal }
    ensures same { KeepsClauses state.old state.new }
    ensures decided { OnOk result (IsDecided state.old state.new literal) }
    ensures err { OnErr result (state.new.trail.entries.items ≡ state.old.trail.entries.items) }
{
    let level = state.levels.len() + 1;
    state.levels.push(Reach {
        entries: state.trail.entries.len(),
        visited: state.visited,
        settled: state.settled,
    })?;
    if let Err(error) = state.trail.push(literal, 0, level) {
        state.levels.truncate(level - 1);
        return Err(error);
    }
    Ok(())
}

/// Takes back the levels above `level`.
pub fn back(state: &mut State, level: usize)
    requires { IsState state.old }
    ensures same { KeepsClauses state.old state.new }
    ensures back { IsBack state.old state.new level }
{
    if level < state.levels.len() {
        let reach = state.levels[level];
        state.trail.back(reach.entries);
        state.visited = reach.visited;
        state.settled = reach.settled;
        state.levels.truncate(level);
    }
}

/// Where a learnt clause leads back: the greatest level of its literals other than the last one
/// that became false, the place of the latest of these others, and what the clause watches then.
#[derive(Clone, Copy)]
pub struct Turn {
    pub level: usize,
    pub place: usize,
    pub pair: Option<Pair>,
}

/// Where a learnt clause leads back, given the latest of its literals. Without others it leads back
/// to level 0.
pub fn turn_of(trail: &Trail, latest: Latest) -> Turn
    requires { (latest.place < length trail.now.entries.items)
        × (latest.others ≤ latest.place) }
    ensures { IsTurn trail.now.entries.items latest result }
{
    if latest.others == 0 {
        return Turn {
            level: 0,
            place: latest.place,
            pair: None,
        };
    }
    let place = latest.others - 1;
    Turn {
        level: trail.entries[place].level,
        place,
        pair: Some(Pair {
            first: trail.negated(latest.place),
            second: trail.negated(place),
        }),
    }
}

/// Learns the clause, which is false, with its chain, and goes back to the greatest level of its
/// literals other than the one of the last level.
pub fn learn(state: &mut State, literals: &[i64], chain: &[u64]) -> Result<(), Memory>
    requires ready { IsReady state.old }
    requires all_false { IsFalse state.old.trail.entries.items literals.now }
    requires chain { IsChainResolvent state.old.clauses chain.now literals.now }
    requires single { IsOfLastLevel state.old literals.now }
    ensures ready { IsReady state.new }
    ensures learnt { OnOk result (IsLearntBack state.old state.new literals.now chain.now) }
    ensures err { OnErr result (IsUnchanged state.old state.new) }
{
    let Some(latest) = latest_of(&state.trail, literals) else {
        unreachable!();
    };
    let turn = turn_of(&state.trail, latest);
    push_clause(
        &mut state.clauses,
        &mut state.chains,
        &mut state.watches,
        literals,
        chain,
        turn.pair,
    )?;
    let reach = state.levels[turn.level];
    state.trail.back(reach.entries);
    state.visited = reach.visited.min(turn.place);
    state.settled = reach.settled;
    state.levels.truncate(turn.level);
    Ok(())
}
