//! The bridge rules of a generated system.

ghost use Rattle.std.specs.Prelude.{◌≡◌, ◌≤◌, IfOk, [], ◌∷◌, map};
ghost use Rattle.mcs_system.specs.Seen.{bridge_of, read_of};
ghost use Rattle.mcs_generator.specs.Generated.{chain_end, reached_rule, missed_rule};

use crate::chain::atom;
use crate::names::{link_name, missed_name, reached_name, rival_name, start_name};
use crate::numbers::chain_length;
use mcs_base::Memory;
use mcs_system::{Bridge, Read};
use std::alloc::Global;

/// The last link of the chain in the context before this one, as the only read of a list.
fn chain_end(alloc: Global, number: u64, context: u32) -> Result<Vec<Read>, Memory>
    requires { 1 ≤ context }
    ensures { IfOk result (λ reads. map read_of reads.items ≡ chain_end number context ∷ []) }
{
    let last = link_name(alloc, chain_length(number))?;
    let mut reads = Vec::new(alloc);
    reads.push(Read {
        context: context - 1,
        belief: atom(last),
    })?;
    Ok(reads)
}

/// The rule that adds x to the context if the context before it believes the last link.
pub(crate) fn reached_rule(alloc: Global, number: u64, context: u32) -> Result<Bridge, Memory>
    requires { 1 ≤ context }
    ensures { IfOk result (λ b. bridge_of b ≡ reached_rule number context) }
{
    let pos = chain_end(alloc, number, context)?;
    let own = reached_name(alloc, context)?;
    let head = start_name(alloc)?;
    Ok(Bridge {
        name: own,
        target: context,
        head: atom(head),
        pos,
        neg: Vec::new(alloc),
        keep: false,
        closed: false,
        weight: 1,
    })
}

/// The rule that adds y to the context if the context before it does not believe the last link.
pub(crate) fn missed_rule(alloc: Global, number: u64, context: u32) -> Result<Bridge, Memory>
    requires { 1 ≤ context }
    ensures { IfOk result (λ b. bridge_of b ≡ missed_rule number context) }
{
    let neg = chain_end(alloc, number, context)?;
    let own = missed_name(alloc, context)?;
    let head = rival_name(alloc)?;
    Ok(Bridge {
        name: own,
        target: context,
        head: atom(head),
        pos: Vec::new(alloc),
        neg,
        keep: false,
        closed: false,
        weight: 1,
    })
}
