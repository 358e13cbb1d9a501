//! What derivations start from.

ghost use Rattle.std.specs.Prelude.{◌≡◌};
ghost use Rattle.mcs_system.specs.Systems.{applicable};

use crate::cone::Cone;
use crate::places::Places;
use mcs_base::{Active, Vars};
use mcs_system::System;

/// What rules are derived of: the system with the places of its atoms, the cones of its contexts,
/// the state, and the rules that apply in it. They are to be derived.
#[derive(Clone, Copy)]
pub(crate) struct Derivation<'a> {
    pub(crate) system: &'a System,
    pub(crate) places: &'a Places,
    pub(crate) cones: &'a [Cone],
    pub(crate) state: Vars,
    pub(crate) goal: Active,
    pub(crate) ghost right: { goal ≡ applicable system.now state },
}
