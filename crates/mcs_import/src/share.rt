//! What supplies a context, and what it guesses.

ghost use Rattle.std.specs.Prelude.{◌≡◌, ◌<◌, All, length, map, IfOk};
ghost use Rattle.std.specs.List.{range_with_len};
ghost use Rattle.mcs_import.specs.Plans.{part, part_of};

use crate::reach::is_imported;
use mcs_base::{Memory, Vars};
use mcs_system::System;
use std::alloc::Global;

/// What a plan keeps for a context: the contexts that supply it, in the import order, and its
/// inputs that belong to none of these.
#[derive(Drop)]
pub(crate) struct Share {
    pub supplied: Vec<u32>,
    pub guessed: Vars,
}

/// What a plan keeps for context `i`.
fn share_of(alloc: Global, system: &System, order: &[u32], i: u32) -> Result<Share, Memory>
    requires in_range { i < length system.now.contexts }
    requires known { All (λ j. j < length system.now.contexts) order.now }
    ensures { IfOk result (λ s. part_of s ≡ part system.now order.now i) }
{
    let mut supplied = Vec::new(alloc);
    let mut guessed = system.inputs_of(i);
    for &j in order {
        if j == i {
            break;
        }
        if is_imported(system, i, j) {
            supplied.push(j)?;
            guessed = guessed.minus(system.vars_of(j));
        }
    }
    Ok(Share { supplied, guessed })
}

/// What a plan keeps for each context.
pub(crate) fn shares(alloc: Global, system: &System, order: &[u32]) -> Result<Vec<Share>, Memory>
    requires { All (λ j. j < length system.now.contexts) order.now }
    ensures { IfOk result (λ shares. map part_of shares.items
        ≡ map (part system.now order.now) (range_with_len 0 (length system.now.contexts))) }
{
    let mut shares = Vec::new(alloc);
    for i in 0..system.contexts().len() as u32 {
        shares.push(share_of(alloc, system, order, i)?)?;
    }
    Ok(shares)
}
