//! The cheapest of some sets of marks.

ghost use Rattle.std.specs.Prelude.{◌≡◌, ◌++◌, ℕ, List, map, IfOk};
ghost use Rattle.std.specs.List.{AllByRecursion};
ghost use Rattle.mcs_sets.specs.Orders.{PairBefore};
ghost use Rattle.mcs_sets.specs.Sets.{Within};
ghost use Rattle.mcs_base.specs.Least.{IsLeastOf};
ghost use Rattle.mcs_base.specs.Listings.{IsAmong, IsListing};
ghost use Rattle.mcs_system.specs.Repairs.{all_marks};
ghost use Rattle.mcs_costs.specs.Costs.{cost, ArePairs};

use crate::costing::cost;
use mcs_base::{Marks, Memory, lesser};
use mcs_system::System;
use std::alloc::Global;

/// The least cost of the pairs and of those before them, whose least cost is `least`.
pub fn least_cost(system: &System, pairs: &[Marks], least: Option<u64>) -> Option<u64>
    requires { AllByRecursion (λ p. Within p (all_marks system.now)) pairs.now }
    ensures { (before : List ℕ) → IsLeastOf (map (cost system.now) before) least
        → IsLeastOf (map (cost system.now) (before ++ pairs.now)) result }
{
    let mut least = least;
    for marks in pairs {
        least = Some(lesser(least, cost(system, *marks)));
    }
    least
}

/// Those of the pairs that cost so much, in their order.
pub fn of_cost(
    alloc: Global,
    system: &System,
    pairs: &[Marks],
    price: u64,
) -> Result<Vec<Marks>, Memory>
    requires { ArePairs system.now pairs.now }
    ensures { IfOk result (λ kept. IsListing (λ p. IsAmong p pairs.now
        × (price ≡ cost system.now p)) PairBefore kept.items) }
{
    let mut kept = Vec::new(alloc);
    for marks in pairs {
        if cost(system, *marks) == price {
            kept.push(*marks)?;
        }
    }
    Ok(kept)
}
