//! Lists of sets, put in order and freed of repeats.

use mcs_base::{Active, Marks, Vars, list_pairs, list_rule_sets, list_states};
use std::test::Fail;

#[test]
fn lists_states(rt: HostRuntime) -> Result<(), Fail> {
    let (none, zero, one, both) = (
        Vars::empty(),
        Vars::one(0),
        Vars::one(1),
        Vars::numbered(0b11),
    );
    let mut states = [one, none, zero, one, both].to_vec(rt.alloc())?;
    list_states(&mut states);
    assert!(rt; states.as_slice() == [both, zero, one, none].as_slice());
    Ok(())
}

#[test]
fn lists_pairs(rt: HostRuntime) -> Result<(), Fail> {
    let (none, three) = (Marks::empty(), Marks::one(3));
    let (outer, inner) = (Marks::one(0).with(3), Marks::one(1).with(2));
    let mut pairs = [inner, outer, three, none, inner].to_vec(rt.alloc())?;
    list_pairs(&mut pairs);
    assert!(rt; pairs.as_slice() == [none, three, outer, inner].as_slice());
    Ok(())
}

#[test]
fn lists_sets_of_rules(rt: HostRuntime) -> Result<(), Fail> {
    let (low, high) = (Active::one(0), Active::one(1));
    let mut sets = [high, low, high, low.with(1)].to_vec(rt.alloc())?;
    list_rule_sets(&mut sets);
    assert!(rt; sets.as_slice() == [low, high, low.with(1)].as_slice());
    Ok(())
}
