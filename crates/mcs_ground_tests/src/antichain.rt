//! Lists of sets of which none lies within another.

use mcs_base::{Antichain, Marks, Memory};
use std::alloc::Global;

/// Whether each of the sets is put in as said, one after the other, and these are left.
fn are_put_in(alloc: Global, sets: &[(Marks, bool)], left: &[Marks]) -> Result<bool, Memory> {
    let mut antichain = Antichain::new(alloc);
    let mut as_said = antichain.members().is_empty();
    antichain.reserve(2)?;
    for (set, is_new) in sets {
        let is_put_in = antichain.insert_min(*set)?;
        as_said = as_said && is_put_in == *is_new;
    }
    Ok(as_said && antichain.members() == left)
}

#[test]
fn keeps_the_minimal_ones(rt: HostRuntime) {
    let (first, second) = (Marks::one(2), Marks::one(6));
    let sets = [
        (first.with(0).with(4), true),
        (second, true),
        (first, true),
        (first.with(4), false),
    ];
    assert!(rt; are_put_in(rt.alloc(), &sets, &[second, first]) == Ok(true));
}

#[test]
fn a_smaller_set_takes_the_place_of_a_larger_one(rt: HostRuntime) {
    let set = Marks::one(2);
    let sets = [(set.with(0), true), (set, true), (set.with(4), false)];
    assert!(rt; are_put_in(rt.alloc(), &sets, &[set]) == Ok(true));
}
