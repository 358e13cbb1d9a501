//! The import order: the order in which the contexts are asked.

ghost use Rattle.std.specs.Prelude.{◌≡◌, ℕ, ◌<◌, ◌≤◌, true, length, IfOk, IfSome, IfNone};
ghost use Rattle.mcs_sets.specs.Sets.{has, such_that};
ghost use Rattle.mcs_system.specs.Imports.{IsImportOrder};
ghost use Rattle.mcs_import.specs.Reach.{AreStrict, IsFirstFree};

use crate::context_set::ContextSet;
use crate::reach::ahead_rows;
use mcs_base::Memory;
use mcs_system::System;
use std::alloc::Global;

/// The lowest-numbered context of the set for which none of those ahead of it are in the set.
/// `ahead` has to be a strict order, so there is such a context if the set is not empty.
fn first_free(ahead: &[ContextSet], set: ContextSet) -> Option<u32>
    requires few { length ahead.now ≤ 64 }
    requires strict { AreStrict ahead.now }
    requires in_range { (k : ℕ) → has set k ≡ true → k < length ahead.now }
    ensures first { IfSome result (IsFirstFree ahead.now set) }
    ensures none { IfNone result (set ≡ 0) }
{
    for i in 0..ahead.len() as u32 {
        if set.has(i) && !ahead[i as usize].meets(set) {
            return Some(i);
        }
    }
    None
}

/// All contexts of the system.
#[tactic(auto, using(mcs_system::proofs::SeenLemmas::loops))]
fn all_contexts(system: &System) -> ContextSet
    ensures { result ≡ such_that (length system.now.contexts) (λ k. true) }
{
    let mut set = ContextSet::empty();
    for i in 0..system.contexts().len() as u32 {
        set = set.with(i);
    }
    set
}

/// The import order of the system. The next context is always the lowest-numbered remaining one
/// such that each remaining context that it reaches through imports reaches it too.
pub(crate) fn import_order(alloc: Global, system: &System) -> Result<Vec<u32>, Memory>
    ensures { IfOk result (λ order. IsImportOrder system.now order.items) }
{
    let ahead = ahead_rows(alloc, system)?;
    let mut untaken = all_contexts(system);
    let mut order = Vec::new(alloc);
    while let Some(i) = first_free(&ahead, untaken) {
        order.push(i)?;
        untaken = untaken.without(i);
    }
    Ok(order)
}
