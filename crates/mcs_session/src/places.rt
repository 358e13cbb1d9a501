//! Sets of variables by the places of their members among those of a context.

ghost use Rattle.std.specs.Prelude.{◌≡◌, map};
ghost use Rattle.mcs_session.specs.Keys.{places_in};

use mcs_base::Vars;

/// The places, counted from 0, at which the members of the part stand among those of the set.
fn places_in(set: Vars, part: Vars) -> Vars
    ensures { result ≡ places_in set part }
{
    let mut places = Vars::empty();
    for (place, member) in set.members().enumerate() {
        if part.has(member) {
            places = places.with(place as u32);
        }
    }
    places
}

/// For each part its places in the set, in the same order. No memory is needed.
pub(crate) fn views_of(set: Vars, parts: Vec<Vars>) -> Vec<Vars>
    ensures { result.items ≡ map (places_in set) parts.items }
{
    let mut views = parts;
    for part in views.iter_mut() {
        *part = places_in(set, *part);
    }
    views
}
