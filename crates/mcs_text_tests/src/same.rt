//! Whether two systems are the same.

use crate::systems::{Claim, holds, system_of};
use mcs_system::System;
use std::alloc::Global;

/// A system, and systems that differ from it in one thing each: a sign, the name of a rule, the
/// name of a context, an item, a head, a belief, the target, the order of the rules, the kind of a
/// context.
const SYSTEMS: &[&str] = &[
    "context a classical { p & q. } context b default { q : r / s. } bridge r0: a:p if b:q, not b:r. bridge r1: b:s.",
    "context a classical { p & q. } context b default { q : r / s. } bridge r0: a:p if b:q, b:r. bridge r1: b:s.",
    "context a classical { p & q. } context b default { q : r / s. } bridge r2: a:p if b:q, not b:r. bridge r1: b:s.",
    "context a classical { p & q. } context c default { q : r / s. } bridge r0: a:p if c:q, not c:r. bridge r1: c:s.",
    "context a classical { p | q. } context b default { q : r / s. } bridge r0: a:p if b:q, not b:r. bridge r1: b:s.",
    "context a classical { p & q. } context b default { q : r / s. } bridge r0: a:~p if b:q, not b:r. bridge r1: b:s.",
    "context a classical { p & q. } context b default { q : r / s. } bridge r0: a:p if b:q, not b:s. bridge r1: b:s.",
    "context a classical { p & q. } context b default { q : r / s. } bridge r0: b:p if b:q, not b:r. bridge r1: b:s.",
    "context a classical { p & q. } context b default { q : r / s. } bridge r1: b:s. bridge r0: a:p if b:q, not b:r.",
    "context a default { p & q. } context b default { q : r / s. } bridge r0: a:p if b:q, not b:r. bridge r1: b:s.",
];

/// Whether the text is of the same system.
fn is_of(alloc: Global, system: &System, text: &str) -> bool {
    let Some(other) = system_of(alloc, text.as_bytes()) else {
        return false;
    };
    let is_same = system.is(&other);
    drop(other);
    is_same
}

/// Whether the system is that of the text at this place, and of no other.
pub(crate) fn is_only(alloc: Global, system: &System, place: usize) -> bool {
    let mut is_only = true;
    for (k, text) in SYSTEMS.iter().enumerate() {
        is_only &= is_of(alloc, system, text) == (k == place);
    }
    is_only
}

#[test]
fn tells_systems_apart(rt: HostRuntime) {
    for (place, text) in SYSTEMS.iter().enumerate() {
        assert!(rt; holds(rt.alloc(), text.as_bytes(), &Claim::IsOnly(place)));
    }
}
