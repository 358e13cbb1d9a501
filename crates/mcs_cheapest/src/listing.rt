//! The cheapest diagnoses of a system.

ghost use Rattle.std.specs.Prelude.{◌≡◌};
ghost use Rattle.mcs_states.specs.Calls.{CanBegin};
ghost use Rattle.mcs_cheapest.specs.Found.{HasSearched, Searches};

use crate::cheapest::Cheapest;
use crate::choosing::cheapest_pairs;
use crate::searching::take_levels;
use mcs_base::Pair;
use mcs_diagnosis::Levels;
use mcs_states::{Evaluator, Halt};
use mcs_system::System;
use std::alloc::Global;

/// The cheapest diagnoses of the system, in the order of pairs, with what they cost. The levels
/// have to be new, and their evaluator one of this system that has done no level yet.
///
/// Levels are taken from 0 on, up to the stop level and no further. The stop level is the least one
/// at which some diagnosis costs less than any pair with more marks can cost, and at most the
/// number of rules; of a consistent system it is 0. It is the greatest level done in the end, and
/// `need` is the number of its questions.
///
/// `Spent` is returned only if one of these levels has more questions than the budget, with the
/// least such level, and `Missing` only for a question of one of them that has no answer. If either
/// condition holds, the call does not return `Ok`. `Memory` may be returned in place of any other
/// result.
pub fn list_cheapest<E: Evaluator>(
    alloc: Global,
    levels: &mut Levels<E>,
    system: &System,
) -> Result<Cheapest, Halt>
    requires new { levels.old.level ≡ 0 }
    requires can { CanBegin system.now (E.stands levels.old.evaluator) }
    ensures { Searches (HasSearched (E.stands levels.old.evaluator) (E.stands levels.new.evaluator))
        (E.stands levels.old.evaluator) (E.stands levels.new.evaluator) result }
{
    let search = take_levels(alloc, levels, system)?;
    let pairs = cheapest_pairs(alloc, system, &search)?;
    let mut found = Vec::new(alloc);
    for marks in &pairs {
        let shown = levels.show(alloc, Pair::new(*marks))?;
        found.push(shown)?;
    }
    Ok(Cheapest {
        found,
        cost: search.least,
        need: levels.evaluator().asked(),
    })
}
