//! Minimizing models of what is known.

ghost use Rattle.std.specs.Prelude.{◌≡◌, ◌<◌, not};
ghost use Rattle.std.specs.List.{list_all};
ghost use Rattle.mcs_sets.specs.Sets.{Within};
ghost use Rattle.mcs_sets.specs.Orders.{StateBefore};
ghost use Rattle.mcs_base.specs.Listings.{IsAscending};
ghost use Rattle.mcs_program.specs.Asked.{StaysModel};
ghost use Rattle.mcs_program.specs.Placing.{lies_beside, may_be_model};

use crate::placed::PlacedProgram;
use crate::placing::{PlacedRule, lies_beside, rules_hold};
use crate::search::Search;
use crate::view::{is_new, view_of};
use mcs_base::Vars;

/// Whether none of the sets is a proper subset of the places that satisfies the reduct by them.
fn none_beside(rules: &[PlacedRule], smaller: &[Vars], places: Vars) -> bool
    ensures { result ≡ list_all (λ less. not (lies_beside rules.now places less)) smaller.now }
{
    smaller
        .iter()
        .all(|less| !lies_beside(rules, places, *less))
}

/// Whether all that is known holds if exactly the atoms at these places are true.
pub(crate) fn is_possible(placed: &PlacedProgram<'_>, search: &Search, places: Vars) -> bool
    requires { IsAscending StateBefore search.now.views.items }
    ensures { result
        ≡ may_be_model placed.now.placing search.now.smaller.items search.now.views.items places }
{
    rules_hold(&placed.placing.rules, places)
        && is_new(&search.views, view_of(placed, places))
        && none_beside(&placed.placing.rules, &search.smaller, places)
}

/// The model without the atom at the place, if all that is known holds for it; otherwise the model.
fn without_atom(placed: &PlacedProgram<'_>, search: &Search, model: Vars, place: u32) -> Vars
    requires ascending { IsAscending StateBefore search.now.views.items }
    requires place { place < 64 }
    ensures stays { StaysModel placed.now.program.now search.now model result }
    ensures within { Within result model }
{
    if !model.has(place) {
        return model;
    }
    let less = model.without(place);
    if is_possible(placed, search, less) {
        less
    } else {
        model
    }
}

/// The model after its atoms were left out one after the other, as far as all that is known still
/// holds.
pub(crate) fn made_small(placed: &PlacedProgram<'_>, search: &Search, model: Vars) -> Vars
    requires { IsAscending StateBefore search.now.views.items }
    ensures stays { StaysModel placed.now.program.now search.now model result }
    ensures within { Within result model }
{
    let mut small = model;
    for place in 0..64 {
        small = without_atom(placed, search, small, place);
    }
    small
}
