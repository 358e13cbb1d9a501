//! The levels that a search for the cheapest diagnoses takes.

ghost use Rattle.std.specs.Prelude.{◌≡◌, ◌↔◌, IsTrue};
ghost use Rattle.mcs_states.specs.Calls.{CanBegin};
ghost use Rattle.mcs_cheapest.specs.Found.{Searches};
ghost use Rattle.mcs_cheapest.specs.Searching.{CostsLess, HasTakenEnough};

use mcs_base::Marks;
use mcs_costs::{least_cost, least_weight};
use mcs_diagnosis::Levels;
use mcs_states::{Evaluator, Halt};
use mcs_system::System;
use std::alloc::Global;

/// The pairs of the minimal diagnoses of the levels taken, in the order of pairs, and the least
/// cost of them.
#[derive(Drop)]
pub(crate) struct Search {
    pub(crate) pairs: Vec<Marks>,
    pub(crate) least: Option<u64>,
}

/// Takes levels from 0 on, until what was found costs less than any pair of a further level, or
/// there is no further level.
pub(crate) fn take_levels<E: Evaluator>(
    alloc: Global,
    levels: &mut Levels<E>,
    system: &System,
) -> Result<Search, Halt>
    requires new { levels.old.level ≡ 0 }
    requires can { CanBegin system.now (E.stands levels.old.evaluator) }
    ensures { Searches (λ search. HasTakenEnough (E.stands levels.old.evaluator)
        (E.stands levels.new.evaluator) levels.new.level search.pairs.items search.least)
        (E.stands levels.old.evaluator) (E.stands levels.new.evaluator) result }
{
    let _bridges = system.bridges();
    let weight = least_weight(system);
    let mut pairs = Vec::new(alloc);
    let mut least = None;
    while !is_settled(least, weight, levels.level()) {
        let Some(fresh) = levels.next_pairs(alloc)? else {
            return Ok(Search { pairs, least });
        };
        least = least_cost(system, &fresh, least);
        pairs.extend_from_slice(&fresh)?;
    }
    Ok(Search { pairs, least })
}

/// Whether this cost is less than so many marks of this weight cost. It is not if one of the two
/// is missing.
fn is_settled(least: Option<u64>, weight: Option<u64>, marks: u32) -> bool
    ensures { IsTrue result ↔ CostsLess least weight marks }
{
    match (least, weight) {
        (Some(least), Some(weight)) => (least as u128) < marks as u128 * weight as u128,
        _ => false,
    }
}
