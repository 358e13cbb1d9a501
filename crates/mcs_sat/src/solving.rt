//! The result of a search.

ghost use Rattle.std.specs.Prelude.{◌≡◌, IfOk};
ghost use Rattle.mcs_sat.specs.Answers.{IsSatAnswer, IsExact, IsSettledAnswer};
ghost use Rattle.mcs_engine.specs.Stores.{IsBase, IsLater, given_count, list_of};

use crate::model::model_of;
use crate::outcome::Outcome;
use mcs_base::Memory;
use mcs_engine::State;
use mcs_search::{Order, search, trace_of};

/// Searches, and returns the result: an assignment, or a trace.
pub(crate) fn outcome_of(
    state: &mut State,
    order: &mut Order,
    vars: u64,
    count: usize,
) -> Result<Outcome, Memory>
    requires base { IsBase state.old vars }
    requires count { count ≡ given_count state.old.chains }
    ensures later { IsLater state.old state.new }
    ensures answer { IfOk result (IsSatAnswer (list_of state.old vars)) }
    ensures exact { IfOk result (IsExact (list_of state.old vars)) }
{
    let alloc = *state.levels.allocator();
    match search(alloc, state, order)? {
        None => Ok(Outcome::Model(model_of(alloc, &state.trail, vars)?)),
        Some(index) => Ok(Outcome::Refuted(trace_of(alloc, state, count, index)?)),
    }
}

/// Searches, and returns the result without a trace: an assignment, or `None`.
pub(crate) fn assignment_of(
    state: &mut State,
    order: &mut Order,
    vars: u64,
) -> Result<Option<Vec<bool>>, Memory>
    requires { IsBase state.old vars }
    ensures later { IsLater state.old state.new }
    ensures exact { IfOk result (IsSettledAnswer (list_of state.old vars)) }
{
    let alloc = *state.levels.allocator();
    match search(alloc, state, order)? {
        None => Ok(Some(model_of(alloc, &state.trail, vars)?)),
        Some(_index) => Ok(None),
    }
}
