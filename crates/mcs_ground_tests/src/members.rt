//! Going over the members of a set.

use mcs_sets::SmallSet;

/// Members come ascending, and after the last none comes.
#[test]
fn go_upwards(rt: HostRuntime) {
    let mut members = SmallSet::one(127).with(0).with(64).members();
    for want in [Some(0), Some(64), Some(127), None, None] {
        assert!(rt; members.next() == want);
    }
}
