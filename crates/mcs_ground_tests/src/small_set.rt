//! Sets of numbers below 128, and their orders.

use mcs_sets::{SmallSet, pair_before, state_before};

/// Whether the set is that of the number, and meets the other and lies within it as said.
fn is_told(set: SmallSet, number: u64, other: SmallSet, meets: bool, within: bool) -> bool {
    set == SmallSet::numbered(number) && set.meets(other) == meets && set.within(other) == within
}

#[test]
fn makes_and_compares_sets(rt: HostRuntime) {
    let (outer, inner) = (SmallSet::one(0).with(3), SmallSet::one(1).with(2));
    let ends = SmallSet::one(127).with(64).with(0);
    assert!(rt; ends.has(0) && !ends.has(63) && ends.has(64) && ends.has(127));
    for (set, number, meets_ends, within_ends) in [
        (SmallSet::empty(), 0b0000, false, true),
        (outer, 0b1001, true, false),
        (outer.without(3), 0b0001, true, true),
        (outer.union(inner), 0b1111, true, false),
        (outer.common(ends), 0b0001, true, true),
        (outer.minus(ends), 0b1000, false, false),
    ] {
        assert!(rt; is_told(set, number, ends, meets_ends, within_ends));
    }
}

#[test]
fn counts_members(rt: HostRuntime) {
    let ends = SmallSet::one(127).with(64).with(0);
    for (set, count, first) in [
        (SmallSet::empty(), 0, None),
        (ends, 3, Some(0)),
        (ends.without(0), 2, Some(64)),
        (SmallSet::one(127), 1, Some(127)),
    ] {
        assert!(rt; set.count() == count && set.first() == first);
    }
}

/// Whether the one set comes before the other as said, in the order of states and in that of pairs.
fn are_ordered(set: SmallSet, other: SmallSet, as_states: bool, as_pairs: bool) -> bool {
    state_before(set, other) == as_states && pair_before(set, other) == as_pairs
}

#[test]
fn orders_sets(rt: HostRuntime) {
    let none = SmallSet::empty();
    let (zero, one) = (SmallSet::one(0), SmallSet::one(1));
    let (outer, inner) = (zero.with(3), one.with(2));
    for (set, other, as_states, as_pairs) in [
        (zero, one, true, true),
        (one, none, true, false),
        (zero.with(1), zero, true, false),
        (one, outer, false, true),
        (outer, inner, true, true),
        (inner, outer, false, false),
        (inner, inner, false, false),
    ] {
        assert!(rt; are_ordered(set, other, as_states, as_pairs));
    }
}
