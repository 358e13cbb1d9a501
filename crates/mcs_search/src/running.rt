//! Unit propagation, until nothing changes.

ghost use Rattle.std.specs.Prelude.{◌≡◌, length, IfOk, OnOk, OnErr};
ghost use Rattle.mcs_engine.specs.Trails.{GrowsOnLevel};
ghost use Rattle.mcs_engine.specs.States.{IsReady, KeepsClauses, KeepsLevels};
ghost use Rattle.mcs_search.specs.Searches.{CanBeTakenBack, IsRun};

use mcs_base::Memory;
use mcs_engine::{State, settle_from, visit_from};

/// Propagates: through the short clauses, and through those that watch a literal that became false,
/// until nothing changes. Returns the index of a clause that is false, if one is found.
pub fn run(state: &mut State) -> Result<Option<usize>, Memory>
    requires { IsReady state.old }
    ensures same { KeepsLevels state.old state.new }
    ensures grows { GrowsOnLevel (length state.old.levels.items) state.old.trail.entries.items
        state.new.trail.entries.items }
    ensures back { CanBeTakenBack state.old state.new }
    ensures run { IfOk result (IsRun state.new) }
{
    let level = state.levels.len();
    let found = settle_from(
        &state.clauses,
        &state.watches.short,
        &mut state.trail,
        level,
        &mut state.settled,
    )?;
    if found.is_some() {
        return Ok(found);
    }
    let found = visit_from(
        &state.clauses,
        &mut state.watches,
        &mut state.trail,
        level,
        &mut state.visited,
    )?;
    Ok(found)
}

/// The same as `run`, but if memory runs out, everything is as before.
pub fn run_or_restore(state: &mut State) -> Result<Option<usize>, Memory>
    requires { IsReady state.old }
    ensures same { KeepsClauses state.old state.new }
    ensures grows { OnOk result (GrowsOnLevel (length state.old.levels.items)
        state.old.trail.entries.items state.new.trail.entries.items) }
    ensures run { IfOk result (IsRun state.new) }
    ensures err { OnErr result (state.new.trail.entries.items ≡ state.old.trail.entries.items) }
{
    let entries = state.trail.entries.len();
    let visited = state.visited;
    let settled = state.settled;
    match run(state) {
        Ok(found) => Ok(found),
        Err(error) => {
            state.trail.back(entries);
            state.visited = visited;
            state.settled = settled;
            Err(error)
        }
    }
}
