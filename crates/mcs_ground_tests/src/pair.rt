//! Pairs of sets of rules.

use mcs_base::{Active, Marks, Pair};

/// Whether the pair of these marks has these two sets of rules, and these marks.
fn is_split(marks: Marks, removed: Active, forced: Active) -> bool {
    let pair = Pair::new(marks);
    pair.removed() == removed && pair.forced() == forced && pair.marks() == marks
}

#[test]
fn splits_marks(rt: HostRuntime) {
    let marks = Marks::one(0).with(3).with(126).with(127);
    assert!(rt; is_split(marks, Active::one(0).with(63), Active::one(1).with(63)));
    assert!(rt; is_split(Marks::empty(), Active::empty(), Active::empty()));
}
