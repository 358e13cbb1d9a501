//! Rows of one state that are kept while they cost as much as any of them.

ghost use Rattle.std.specs.Prelude.{◌≡◌, ◌↔◌, ℕ, IfOk, IsTrue, slice_get};
ghost use Rattle.mcs_elimination.specs.Runs.{BeginsWith, IsAdded, IsRun};

use mcs_base::{Memory, Partial};
use mcs_table::Row;

/// The last of the rows that are kept, from a place on, which are of one state: what each of them
/// costs.
#[derive(Clone, Copy, Debug)]
pub(crate) struct Run {
    pub(crate) from: usize,
    pub(crate) price: u64,
}

/// Adds the row, which costs so much, unless a kept one of its state costs less. Those of its state
/// that cost more are dropped. The last of the kept rows are a run.
pub(crate) fn add(rows: &mut Vec<Row>, run: Run, row: Row, price: u64) -> Result<Run, Memory>
    ensures { IfOk result (λ next. (cost : ℕ → ℕ) → cost row.marks ≡ price
        → IsRun cost rows.old.items run → IsAdded cost row rows.old.items rows.new.items run next) }
{
    if !continues(rows, run, row.state) {
        let from = rows.len();
        rows.push(row)?;
        return Ok(Run { from, price });
    }
    if price > run.price {
        return Ok(run);
    }
    if price < run.price {
        rows.truncate(run.from);
    }
    rows.push(row)?;
    Ok(Run {
        from: run.from,
        price,
    })
}

/// Whether the run has a row, and the first one is of this state.
fn continues(rows: &[Row], run: Run, state: Partial) -> bool
    ensures { IsTrue result ↔ BeginsWith (slice_get rows.now run.from) state }
{
    match rows.get(run.from) {
        Some(first) => first.state == state,
        None => false,
    }
}
