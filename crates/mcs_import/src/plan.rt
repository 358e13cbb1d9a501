//! Plans: in which order the contexts of a system are asked, and what supplies each of them.

ghost use Rattle.std.specs.Prelude.{◌≡◌, ◌<◌, ◌↔◌, List, ℕ, All, length, IfOk, IsTrue};
ghost use Rattle.std.specs.Arc.{arc_value};
ghost use Rattle.mcs_system.specs.Imports.{IsImportOrder, supplied};
ghost use Rattle.mcs_import.specs.Plans.{guessed, part, part_of};

use crate::order::import_order;
use crate::share::{Share, shares};
use mcs_base::{Memory, Vars};
use mcs_system::System;
use std::alloc::Global;
use std::marker::Model;
use std::sync::Arc;

/// The import order of a system, and for each context what supplies it and what it guesses. The
/// model of a plan is its system, so two plans are equal if their systems are.
pub struct Plan {
    system: Arc<System>,
    order: Vec<u32>,
    shares: Vec<Share>,
}

impl Drop for Plan {
    fn drop(self) {
        let Plan {
            system: _,
            order: _,
            shares: _,
        } = self;
    }
}

impl Model for Plan {
    ghost use Rattle.std.specs.Arc.{arc_value};
    ghost use Rattle.mcs_import.specs.Plans.{IsPlan};
    ghost use Rattle.mcs_system.specs.Codes.{coded_system};
    ghost use Rattle.mcs_system.specs.Plain as plain;

    ghost Value = { plain.System };

    ghost coded = { coded_system };

    ghost view = { λ p. arc_value p.system };

    ghost invariant = { λ p. IsPlan (arc_value p.system) p.order.items p.shares.items };
}

impl Plan {
    /// The plan of the system.
    pub fn of(alloc: Global, system: Arc<System>) -> Result<Plan, Memory>
        ensures { IfOk result (λ plan. plan ≡ arc_value system) }
    {
        let order = import_order(alloc, &system)?;
        let shares = shares(alloc, &system, &order)?;
        Ok(Plan {
            system,
            order,
            shares,
        })
    }

    /// Whether both plans are the same. Plans of one system are, however the system was built.
    pub fn is(&self, other: &Plan) -> bool
        ensures { IsTrue result ↔ (self.now ≡ other.now) }
    {
        self.system.is(&other.system)
    }

    /// The system of the plan.
    pub fn system(&self) -> &System
        ensures { result.now ≡ self.now }
    {
        &self.system
    }

    /// All contexts in the import order. The next context is always the lowest-numbered remaining
    /// one such that each remaining context that it reaches through imports reaches it too.
    pub fn order(&self) -> &[u32]
        ensures order { IsImportOrder self.now result.now }
        ensures one_each { length result.now ≡ length self.now.contexts }
        ensures in_range { All (λ j. j < length self.now.contexts) result.now }
    {
        &self.order
    }

    /// What the plan keeps for a context of the system.
    fn share(&self, i: u32) -> &Share
        requires { i < length self.now.contexts }
        ensures { (order : List ℕ) → IsImportOrder self.now order
            → part_of result.now ≡ part self.now order i }
    {
        &self.shares[i as usize]
    }

    /// The contexts that supply context `i` of the system: those that it imports and that come
    /// before it, in the import order.
    pub fn supplied(&self, i: u32) -> &[u32]
        requires { i < length self.now.contexts }
        ensures supplied { (order : List ℕ) → IsImportOrder self.now order
            → result.now ≡ supplied self.now order i }
        ensures in_range { All (λ j. j < length self.now.contexts) result.now }
    {
        &self.share(i).supplied
    }

    /// The inputs that context `i` of the system guesses: the variables that rules into it read and
    /// that belong to no context that supplies it, but to later contexts or to `i` itself.
    pub fn guessed(&self, i: u32) -> Vars
        requires { i < length self.now.contexts }
        ensures { (order : List ℕ) → IsImportOrder self.now order
            → result ≡ guessed self.now order i }
    {
        self.share(i).guessed
    }
}
