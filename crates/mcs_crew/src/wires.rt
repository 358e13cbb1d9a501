//! New wires, one for each group.

ghost use Rattle.std.specs.Prelude.{◌≡◌, ◌+◌, ◌<◌, ◌≤◌, ℕ, List, IfOk, length, map};
ghost use Rattle.std.specs.List.{AllByRecursion};
ghost use Rattle.std.specs.Arc.{arc_value};
ghost use Rattle.mcs_system.specs.Imports.{IsImportOrder};
ghost use Rattle.mcs_wire.specs.Ends.{less_one, one_part};
ghost use Rattle.mcs_crew.specs.Hubs.{AreEnds, AreWires, awaited_by};

use mcs_base::Memory;
use mcs_import::Plan;
use mcs_wire::{Address, Ends, Inbox, wire};
use std::alloc::Global;
use std::sync::Arc;

/// How many letters the nodes of the group await: one from each context that supplies one of
/// theirs.
pub(crate) fn awaited(plan: &Plan, group: u32, groups: u32) -> usize
    requires { 0 < groups }
    ensures { (order : List ℕ) → IsImportOrder plan.now order
        → result ≡ awaited_by plan.now order groups group (length plan.now.contexts) }
{
    let mut count = 0;
    for i in 0..plan.system().contexts().len() as u32 {
        if i % groups == group {
            count += plan.supplied(i).len();
        }
    }
    count
}

/// The wire of the group. Its inbox holds all letters that the group awaits, and it has an address
/// for each group, and one that stays with the caller.
fn wire_of(alloc: Global, plan: &Arc<Plan>, group: u32, groups: u32) -> Result<Ends, Memory>
    requires { (0 < groups) × (groups ≤ 64) }
    ensures { IfOk result (λ ends. AreEnds (arc_value plan.now) groups ends.address ends.inbox) }
{
    let letters = awaited(plan, group, groups).max(1);
    wire(alloc, Arc::try_clone(plan)?, letters, groups + 1)
}

/// The ends of all wires that stay with the caller, and their inboxes.
#[derive(Drop)]
pub(crate) struct Wires {
    pub addresses: Vec<Address>,
    pub inboxes: Vec<Inbox>,
}

/// A wire for each of so many groups.
pub(crate) fn wires_of(alloc: Global, plan: &Arc<Plan>, groups: u32) -> Result<Wires, Memory>
    requires { (0 < groups) × (groups ≤ 64) }
    ensures { IfOk result (λ wires. AreWires (arc_value plan.now) groups groups
        wires.addresses.items wires.inboxes.items) }
{
    let mut addresses = Vec::new(alloc);
    let mut inboxes = Vec::new(alloc);
    for group in 0..groups {
        let Ends { address, inbox } = wire_of(alloc, plan, group, groups)?;
        addresses.push(address)?;
        inboxes.push(inbox)?;
    }
    Ok(Wires { addresses, inboxes })
}

/// An address split off each of these, of which each has at least two parts.
pub(crate) fn split_each(alloc: Global, addresses: &mut [Address]) -> Result<Vec<Address>, Memory>
    requires { AllByRecursion (λ a. 2 ≤ a.parts) addresses.old }
    ensures kept { IfOk result (λ _. addresses.new ≡ map less_one addresses.old) }
    ensures moved { IfOk result (λ new. new.items ≡ map one_part addresses.old) }
{
    let mut new = Vec::new(alloc);
    for address in addresses.iter_mut() {
        new.push(address.split()?)?;
    }
    Ok(new)
}
