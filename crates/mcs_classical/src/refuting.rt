//! The atoms that are true under an assignment of the variables.

ghost use Rattle.std.specs.Prelude.{◌≡◌, ◌≤◌, length, get_or, false};
ghost use Rattle.mcs_sets.specs.Sets.{such_that};

use mcs_base::Vars;

/// The places, below `count`, of the values that are true.
#[tactic(auto, unfolding(mcs_sets::specs::Sets::such_that))]
pub fn true_places(values: &[bool], count: usize) -> Vars
    requires few { count ≤ 64 }
    requires values { count ≤ length values.now }
    ensures { result ≡ such_that count (λ k. get_or values.now k false) }
{
    let mut places = Vars::empty();
    for k in 0..count {
        if values[k] {
            places = places.with(k as u32);
        }
    }
    places
}
