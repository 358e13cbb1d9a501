//! Views of models, and their positions among other views.

ghost use Rattle.std.specs.Prelude.{◌≡◌, ◌<◌, ◌≤◌, true, length, get_or, take};
ghost use Rattle.std.specs.List.{AllByRecursion};
ghost use Rattle.mcs_sets.specs.Sets.{such_that};
ghost use Rattle.mcs_sets.specs.Orders.{StateBefore};
ghost use Rattle.mcs_base.specs.Listings.{IsAscending};
ghost use Rattle.mcs_program.specs.Placing.{view_at, is_other};

use crate::placed::PlacedProgram;
use mcs_base::Vars;

/// The set of the first `count` places.
pub(crate) fn all_places(count: usize) -> Vars
    requires { count ≤ 64 }
    ensures { result ≡ such_that count (λ _. true) }
{
    let mut places = Vars::empty();
    for place in 0..count {
        places = places.with(place as u32);
    }
    places
}

/// The numbers of the places that the model has.
fn numbers_in(places: &[u32], model: Vars) -> Vars
    requires few { length places.now ≤ 64 }
    requires places { AllByRecursion (λ k. k < 64) places.now }
    ensures { result ≡ view_at places.now model }
{
    let mut view = Vars::empty();
    for (k, place) in places.iter().enumerate() {
        if model.has(*place) {
            view = view.with(k as u32);
        }
    }
    view
}

/// The numbers of the beliefs that are true if exactly the atoms at the places of the model are.
pub(crate) fn view_of(placed: &PlacedProgram<'_>, model: Vars) -> Vars
    ensures { result ≡ view_at placed.now.placing.beliefs.items model }
{
    numbers_in(&placed.placing.beliefs, model)
}

/// How many of the views come before this one.
pub(crate) fn place_of(views: &[Vars], view: Vars) -> usize
    requires { IsAscending StateBefore views.now }
    ensures bound { result ≤ length views.now }
    ensures before { AllByRecursion (λ v. StateBefore v view) (take result views.now) }
    ensures after { result < length views.now → ¬ StateBefore (get_or views.now result 0) view }
{
    views.partition_point(|other| *other < view)
}

/// Whether the view is not among these.
pub(crate) fn is_new(views: &[Vars], view: Vars) -> bool
    requires { IsAscending StateBefore views.now }
    ensures { result ≡ is_other views.now view }
{
    let place = place_of(views, view);
    place == views.len() || views[place] != view
}
