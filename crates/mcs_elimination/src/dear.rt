//! Marks that no cheap diagnosis has.

ghost use Rattle.std.specs.Prelude.{IfOk};
ghost use Rattle.mcs_base.specs.Listings.{IsInventory};
ghost use Rattle.mcs_elimination.specs.Eliminating.{AreDearMarks, IsDearMark};

use crate::lightest::bound_at;
use mcs_base::{Marks, Memory};
use mcs_costs::cost;
use mcs_system::System;
use std::alloc::Global;

/// The allowed marks that alone reach the bound of the level, all of them, each as a set of its own.
/// The bound is a cost that any allowed marks, at most one of each rule, reach of which there are
/// more than the level says. No diagnosis below it has one of the dear marks, so `cheapest_at` needs
/// no row with one. There is no bound, and there are none, if the level is at least the number of
/// rules.
pub fn dear_marks(alloc: Global, system: &System, level: u32) -> Result<Vec<Marks>, Memory>
    ensures { IfOk result (λ dear. AreDearMarks system.now level dear.items) }
{
    match bound_at(system, level) {
        None => Ok(Vec::new(alloc)),
        Some(bound) => {
            let dear = marks_from(alloc, system, bound)?;
            Ok(dear)
        }
    }
}

/// The allowed marks that cost so much or more.
fn marks_from(alloc: Global, system: &System, price: u64) -> Result<Vec<Marks>, Memory>
    ensures { IfOk result (λ dear. IsInventory (IsDearMark system.now price) dear.items) }
{
    let _bridges = system.bridges();
    let mut dear = Vec::new(alloc);
    for mark in system.allowed().members() {
        let alone = Marks::one(mark);
        if cost(system, alone) >= price {
            dear.push(alone)?;
        }
    }
    Ok(dear)
}
