//! What is known of the atoms that a belief state has: bounds of each of its answer sets.

ghost use Rattle.std.specs.Prelude.{◌<◌, ◌≤◌, length};
ghost use Rattle.mcs_grounded.specs.Searches.{AreFirstBounds, IsToldAt};

use crate::cone::Cone;
use mcs_base::Vars;

/// For each context, of the atoms in its cone, those that its answer set has for certain, and those
/// that it may have. Both are empty for classical contexts, and where there is no context.
#[derive(Clone, Copy)]
pub(crate) struct Bounds {
    pub(crate) certain: [Vars; 64],
    pub(crate) possible: [Vars; 64],
}

impl Bounds {
    /// The bounds of all belief states: no atom is certain, and each one of a cone is possible.
    pub(crate) fn of(cones: &[Cone]) -> Bounds
        requires { length cones.now ≤ 64 }
        ensures { AreFirstBounds cones.now result }
    {
        let none = [Vars::empty(); 64];
        let mut possible = none;
        for (context, cone) in cones.iter().enumerate() {
            possible[context] = cone.places;
        }
        Bounds {
            certain: none,
            possible,
        }
    }

    /// The bounds with the atoms of one context told: these and no others.
    pub(crate) fn told(&self, context: usize, atoms: Vars) -> Bounds
        requires { context < 64 }
        ensures { IsToldAt self.now context atoms result }
    {
        let mut told = *self;
        told.certain[context] = atoms;
        told.possible[context] = atoms;
        told
    }
}
