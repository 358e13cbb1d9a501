//! Partial states: states of some of the variables.

ghost use Rattle.std.specs.Prelude.{◌≡◌, ◌↔◌, IsTrue};
ghost use Rattle.mcs_sets.specs.Sets.{Within};
ghost use Rattle.mcs_base.specs.Partials.{IsPartial, Fits, united, restricted};

use crate::kinds::Vars;
use std::marker::Model;

/// A value for each variable of a mask: those in `values` are true, the others in the mask are
/// false.
#[derive(Clone, Copy, Debug, PartialEq, Eq)]
pub struct Partial {
    mask: Vars,
    values: Vars,
}

impl Model for Partial {
    ghost use Rattle.mcs_base.specs.Partials.{PartialState, IsPartial};

    ghost Value = { PartialState };

    ghost view = { λ s. record { mask = s.mask; values = s.values } };

    ghost invariant = { λ s. IsPartial (record { mask = s.mask; values = s.values }) };

    ghost inverse = { λ s. record { mask = s.mask; values = s.values } };
}

impl Partial {
    /// The partial state of the variables in the mask in which exactly those in `values` are true.
    /// All of `values` have to be in the mask.
    pub fn new(mask: Vars, values: Vars) -> Self
        requires { Within values mask }
        ensures { result ≡ record { mask = mask; values = values } }
    {
        Partial { mask, values }
    }

    /// The variables that have a value.
    pub fn mask(&self) -> Vars
        ensures value { result ≡ self.now.mask }
        ensures kept { IsPartial self.now }
    {
        self.mask
    }

    /// The variables that are true.
    pub fn values(&self) -> Vars
        ensures value { result ≡ self.now.values }
        ensures kept { IsPartial self.now }
    {
        self.values
    }

    /// Whether the two are compatible: they agree on each variable to which both give a value.
    pub fn fits(&self, other: &Partial) -> bool
        ensures { IsTrue result ↔ Fits self.now other.now }
    {
        self.values.common(other.mask) == other.values.common(self.mask)
    }

    /// The union of the two states, which have to be compatible.
    pub fn union(&self, other: &Partial) -> Partial
        requires { Fits self.now other.now }
        ensures { result ≡ united self.now other.now }
    {
        Partial {
            mask: self.mask.union(other.mask),
            values: self.values.union(other.values),
        }
    }

    /// The restriction of the state to the variables of a set.
    pub fn restrict(&self, mask: Vars) -> Partial
        ensures { result ≡ restricted self.now mask }
    {
        Partial {
            mask: self.mask.common(mask),
            values: self.values.common(mask),
        }
    }
}
