//! Of the rows of each state of a table those that cost the least.

ghost use Rattle.std.specs.Prelude.{◌≡◌, ℕ, true, false, IfOk};
ghost use Rattle.std.specs.List.{AllByRecursion};
ghost use Rattle.mcs_sets.specs.Sets.{Within};
ghost use Rattle.mcs_system.specs.Repairs.{all_marks};
ghost use Rattle.mcs_costs.specs.Costs.{cost};
ghost use Rattle.mcs_table.specs.declared.row.Row as declared;
ghost use Rattle.mcs_elimination.specs.CheapestRows.{HasCheapest, IsBelow};

use crate::run::{Run, add};
use mcs_base::Memory;
use mcs_costs::cost;
use mcs_system::System;
use mcs_table::Table;
use std::alloc::Global;

/// Of the rows of each state those that cost the least, if less than the bound. Rows of one state
/// stand together, so each row is looked at once.
pub(crate) fn cheapest_rows(
    alloc: Global,
    system: &System,
    table: &Table,
    below: Option<u64>,
) -> Result<Table, Memory>
    requires { AllByRecursion (λ (r : declared.Row). Within r.marks (all_marks system.now))
        table.now.rows }
    ensures { IfOk result (HasCheapest (cost system.now) below table.now) }
{
    let mut kept = Vec::new(alloc);
    let mut run = Run { from: 0, price: 0 };
    for row in table.rows() {
        let price = cost(system, row.marks);
        if is_below(price, below) {
            run = add(&mut kept, run, *row, price)?;
        }
    }
    Ok(Table::new(table.scope(), kept))
}

/// Whether there is no bound, or the price is less.
pub(crate) fn is_below(price: u64, below: Option<u64>) -> bool
    ensures yes { result ≡ true → IsBelow below price }
    ensures no { result ≡ false → ¬ IsBelow below price }
{
    match below {
        None => true,
        Some(bound) => price < bound,
    }
}
