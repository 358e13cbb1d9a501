//! The cheapest of the pairs that a search has found.

ghost use Rattle.std.specs.Prelude.{◌≡◌, IfOk};
ghost use Rattle.mcs_sets.specs.Orders.{PairBefore};
ghost use Rattle.mcs_base.specs.Listings.{IsAmong, IsListing};
ghost use Rattle.mcs_costs.specs.Costs.{ArePairs, cost};
ghost use Rattle.mcs_cheapest.specs.Searching.{CostsLeast};

use crate::searching::Search;
use mcs_base::{Marks, Memory};
use mcs_costs::of_cost;
use mcs_system::System;
use std::alloc::Global;

/// Those of the pairs found that cost the least, in their order.
pub(crate) fn cheapest_pairs(
    alloc: Global,
    system: &System,
    search: &Search,
) -> Result<Vec<Marks>, Memory>
    requires { ArePairs system.now search.now.pairs.items }
    ensures { IfOk result (λ pairs. IsListing (λ p. IsAmong p search.now.pairs.items
        × CostsLeast search.now.least (cost system.now p)) PairBefore pairs.items) }
{
    match search.least {
        None => Ok(Vec::new(alloc)),
        Some(least) => of_cost(alloc, system, &search.pairs, least),
    }
}
