//! Partial states.

use mcs_base::{Partial, Vars};

/// The state of this mask and these values, if they lie within it.
fn partial(mask: Vars, values: Vars) -> Option<Partial> {
    if values.within(mask) {
        Some(Partial::new(mask, values))
    } else {
        None
    }
}

/// Whether the two fit, and together have this mask and these values.
fn are_united(first: &Partial, second: &Partial, mask: Vars, values: Vars) -> bool {
    if !first.fits(second) {
        return false;
    }
    let both = first.union(second);
    both.mask() == mask && both.values() == values
}

/// Whether states of two variables fit, unite and are restricted as their common variable says.
fn agree() -> Option<bool> {
    let (zero, one) = (Vars::one(0), Vars::one(1));
    let first = partial(zero.with(1), one)?;
    let second = partial(one.with(2), one.with(2))?;
    let (unlike, last) = (partial(one, Vars::empty())?, partial(one, one)?);
    Some(
        !first.fits(&unlike)
            && are_united(&first, &second, zero.with(1).with(2), one.with(2))
            && second.restrict(one) == last
            && second.restrict(zero).mask() == Vars::empty(),
    )
}

#[test]
fn partial_states_agree_on_common_variables(rt: HostRuntime) {
    assert!(rt; agree() == Some(true));
}
