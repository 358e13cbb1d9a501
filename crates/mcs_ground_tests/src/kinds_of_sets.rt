//! The calls of the three kinds of sets, at the least and the greatest numbers that they may hold.

use mcs_base::{Active, Marks, Vars, pair_before, state_before};

/// Whether each call of one kind of sets, whose greatest number is `$top`, answers rightly: of each
/// set how many numbers it has, its first one, and whether it meets the set of the greatest number
/// and lies within it.
macro_rules! are_right {
    ($Set:ident, $top:literal) => {{
        let (low, high) = ($Set::one(0), $Set::one($top));
        let ends = low.with($top);
        let mut right = [ends.has(0), ends.has(7), ends.has($top)] == [true, false, true];
        for (set, answers) in [
            ($Set::empty(), (0, None, false, true)),
            (low.union(high), (2, Some(0), true, false)),
            (ends.without(0), (1, Some($top), true, true)),
            (ends.common(high), (1, Some($top), true, true)),
            (ends.minus(high), (1, Some(0), false, false)),
        ] {
            let found = (set.count(), set.first(), set.meets(high), set.within(high));
            right = right && found == answers;
        }
        let mut members = ends.members();
        let found = [members.next(), members.next(), members.next()];
        right && found == [Some(0), Some($top), None]
    }};
}

fn are_vars_right() -> bool {
    are_right!(Vars, 63)
}

fn are_active_right() -> bool {
    are_right!(Active, 63)
}

fn are_marks_right() -> bool {
    are_right!(Marks, 127)
}

#[test]
fn sets_reach_their_greatest_numbers(rt: HostRuntime) {
    assert!(rt; are_vars_right() && are_active_right() && are_marks_right());
    assert!(rt; Vars::numbered(0b101).number() == 0b101);
}

#[test]
fn sets_of_the_greatest_number_are_in_order(rt: HostRuntime) {
    let (last, none) = (Vars::one(63), Vars::empty());
    assert!(rt; state_before(last, none) && !state_before(none, last));
    let (last, none) = (Marks::one(127), Marks::empty());
    assert!(rt; pair_before(none, last) && !pair_before(last, none));
}
