//! Goals that are literally among the formulas.

ghost use Rattle.std.specs.Prelude.{◌≡◌, length, map};
ghost use Rattle.std.specs.List.{list_any};
ghost use Rattle.mcs_sets.specs.Sets.{such_that};
ghost use Rattle.mcs_system.specs.Seen.{formula_of};
ghost use Rattle.mcs_system.specs.Systems.{same_formula};
ghost use Rattle.mcs_asked.specs.Questions.{asked_beliefs};
ghost use Rattle.mcs_classical.specs.Consequences.{stands_at};

use mcs_asked::Asked;
use mcs_base::Vars;
use mcs_system::{Formula, same_formula};

/// Whether the goal is literally one of the formulas.
fn is_among(formulas: &[Formula], goal: &Formula) -> bool
    ensures { result ≡ list_any (same_formula (formula_of goal.now)) (map formula_of formulas.now) }
{
    formulas.iter().any(|formula| same_formula(goal, formula))
}

/// The places of the beliefs that are literally among the formulas.
pub(crate) fn goals_among(formulas: &[Formula], asked: &Asked<'_>) -> Vars
    ensures { result ≡ such_that (length asked.now.beliefs.now)
        (stands_at (map formula_of formulas.now) (asked_beliefs asked.now)) }
{
    let goals = asked.beliefs;
    let mut places = Vars::empty();
    for (place, goal) in goals.iter().enumerate() {
        if is_among(formulas, goal) {
            places = places.with(place as u32);
        }
    }
    places
}
