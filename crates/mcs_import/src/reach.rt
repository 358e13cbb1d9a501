//! Which contexts a context imports, and which of those that it reaches do not reach it.

ghost use Rattle.std.specs.Prelude.{◌≡◌, ◌<◌, ◌≤◌, length, map, IfOk};
ghost use Rattle.std.specs.List.{range_with_len};
ghost use Rattle.mcs_system.specs.Faults.{IsValid};
ghost use Rattle.mcs_system.specs.Imports.{imports};
ghost use Rattle.mcs_import.specs.Reach.{through, rows_through, import_row, ahead_row, AreReached};
ghost use Rattle.mcs_import.specs.Reach.{AreAhead};

use crate::context_set::ContextSet;
use mcs_base::Memory;
use mcs_system::System;
use std::alloc::Global;

/// Whether some rule into context `i` reads a belief of context `j`.
pub(crate) fn is_imported(system: &System, i: u32, j: u32) -> bool
    requires importing { i < length system.now.contexts }
    requires imported { j < length system.now.contexts }
    ensures { result ≡ imports system.now i j }
{
    system.inputs_of(i).meets(system.vars_of(j))
}

/// The contexts that context `i` imports.
#[tactic(auto, using(mcs_system::proofs::SeenLemmas::loops), unfolding(crate::specs::Reach::import_row))]
fn imported_by(system: &System, i: u32) -> ContextSet
    requires { i < length system.now.contexts }
    ensures { result ≡ import_row system.now i }
{
    let mut row = ContextSet::empty();
    for j in 0..system.contexts().len() as u32 {
        if is_imported(system, i, j) {
            row = row.with(j);
        }
    }
    row
}

/// For each context the contexts that it imports.
fn import_rows(alloc: Global, system: &System) -> Result<Vec<ContextSet>, Memory>
    ensures { IfOk result (λ rows. rows.items
        ≡ map (import_row system.now) (range_with_len 0 (length system.now.contexts))) }
{
    let mut rows = Vec::new(alloc);
    for i in 0..system.contexts().len() as u32 {
        rows.push(imported_by(system, i))?;
    }
    Ok(rows)
}

/// The row, united with the middle row if it has `k`.
fn passed(row: ContextSet, k: u32, middle: ContextSet) -> ContextSet
    requires { k < 64 }
    ensures { result ≡ through k middle row }
{
    if row.has(k) { row.union(middle) } else { row }
}

/// Unites with row `k` each row that has `k`.
fn pass_through(rows: &mut [ContextSet], k: u32)
    requires in_range { k < length rows.old }
    requires few { length rows.old ≤ 64 }
    ensures { rows.new ≡ rows_through k rows.old }
{
    let middle = rows[k as usize];
    for row in rows {
        *row = passed(*row, k, middle);
    }
}

/// For each context the contexts that it reaches through imports (Warshall 1962).
fn reached_rows(alloc: Global, system: &System) -> Result<Vec<ContextSet>, Memory>
    ensures { IfOk result (λ rows. AreReached system.now rows.items) }
{
    let contexts = system.contexts().len() as u32;
    let mut rows = import_rows(alloc, system)?;
    for k in 0..contexts {
        pass_through(&mut rows, k);
    }
    Ok(rows)
}

/// The members of row `i` whose own rows do not have `i`.
#[tactic(auto, using(mcs_system::proofs::SeenLemmas::loops), unfolding(crate::specs::Reach::ahead_row))]
fn ahead_of(reached: &[ContextSet], i: u32) -> ContextSet
    requires in_range { i < length reached.now }
    requires few { length reached.now ≤ 64 }
    ensures { result ≡ ahead_row reached.now i }
{
    let mut row = ContextSet::empty();
    for j in 0..reached.len() as u32 {
        if reached[i as usize].has(j) && !reached[j as usize].has(i) {
            row = row.with(j);
        }
    }
    row
}

/// For each context the contexts that it reaches and that do not reach it: these come before it.
pub(crate) fn ahead_rows(alloc: Global, system: &System) -> Result<Vec<ContextSet>, Memory>
    ensures few { length system.now.contexts ≤ 64 }
    ensures valid { IsValid system.now }
    ensures rows { IfOk result (λ rows. AreAhead system.now rows.items) }
{
    let contexts = system.contexts().len() as u32;
    let reached = reached_rows(alloc, system)?;
    let mut rows = Vec::new(alloc);
    for i in 0..contexts {
        rows.push(ahead_of(&reached, i))?;
    }
    Ok(rows)
}
