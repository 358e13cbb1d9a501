//! All that a round by threads takes memory for.

ghost use Rattle.std.specs.Prelude.{◌≡◌, ◌+◌, ◌*◌, ◌<◌, ◌≤◌, ℕ, [], IfOk, Some, length, map};
ghost use Rattle.std.specs.Prelude.{slice_get, vec_capacity, vec_len};
ghost use Rattle.std.specs.Arc.{arc_value};
ghost use Rattle.std.specs.List.{AllByRecursion};
ghost use Rattle.mcs_wire.specs.Ends.{AddressData};
ghost use Rattle.mcs_crew.specs.Calls.{load_of};
ghost use Rattle.mcs_crew.specs.Hubs.{AreNewLoads, AreSplitOff, AreWires, IsEquipment, IsNewLoad};
ghost use Rattle.mcs_crew.specs.Teams.{seat_room};

use crate::child::Child;
use crate::load::{Load, Team};
use crate::wires::{Wires, awaited, split_each, wires_of};
use crate::workforce::Workforce;
use mcs_base::Memory;
use mcs_draw::{Draw, Seat};
use mcs_import::Plan;
use mcs_states::Oracle;
use mcs_wire::{Address, Inbox};
use std::alloc::Global;
use std::sync::Arc;
use std::sync::atomic::AtomicBool;

/// What a seat may draw: as many questions as 64 contexts have, each with at most 12 rules into it.
const SEAT_ROOM: u64 = 64 * 4096;

/// What the caller keeps of the wires and of the word while they are in use: an address of each
/// wire, and a seat.
#[derive(Drop)]
pub(crate) struct Hub {
    pub addresses: Vec<Address>,
    pub seat: Seat,
}

/// The word of a round, what the caller keeps, and the loads of all groups, without nodes.
#[derive(Drop)]
pub(crate) struct Equipment<O: Oracle> {
    pub draw: Draw,
    pub hub: Hub,
    pub loads: Vec<Load<O>>,
}

/// A flag and a worker for each group, and room for the loads that are out and for those that are
/// back.
#[derive(Drop)]
pub(crate) struct Hall<O: Oracle> {
    pub flags: Vec<AtomicBool>,
    pub workforce: Workforce,
    pub children: Vec<Child<O>>,
    pub back: Vec<Load<O>>,
}

/// So many flags, none of them set.
fn flags_of(alloc: Global, groups: u32) -> Result<Vec<AtomicBool>, Memory> {
    let mut flags = Vec::new(alloc);
    for _ in 0..groups {
        flags.push(AtomicBool::new(false))?;
    }
    Ok(flags)
}

/// The hall for so many groups, with so many workers.
pub(crate) fn hall_of<O: Oracle>(
    alloc: Global,
    groups: u32,
    workers: u32,
) -> Result<Hall<O>, Memory>
    ensures children { IfOk result (λ hall. (vec_len hall.children ≡ 0)
        × (groups ≤ vec_capacity hall.children)) }
    ensures back { IfOk result (λ hall. (vec_len hall.back ≡ 0)
        × (groups ≤ vec_capacity hall.back)) }
{
    let flags = flags_of(alloc, groups)?;
    let children = Vec::with_capacity(alloc, groups as usize)?;
    let back = Vec::with_capacity(alloc, groups as usize)?;
    Ok(Hall {
        flags,
        workforce: Workforce::new(workers as usize, groups as usize),
        children,
        back,
    })
}

/// The load of the group, with this inbox and without nodes, for which it has room. Its addresses
/// and its seat are split off the hub's.
fn load_for<O: Oracle>(
    alloc: Global,
    plan: &Plan,
    group: u32,
    groups: u32,
    draw: &Draw,
    hub: &mut Hub,
    inbox: Inbox,
) -> Result<Load<O>, Memory>
    requires groups { 0 < groups }
    requires word { hub.old.seat.word ≡ draw.now.word }
    requires room { seat_room < hub.old.seat.account.left }
    requires parts { (g : ℕ) (a : AddressData) → slice_get hub.old.addresses.items g ≡ Some a
        → (2 ≤ a.parts) × (a.sent ≡ []) }
    ensures load { IfOk result (λ load. IsNewLoad plan.now groups group hub.old.seat.account.top
        draw.now.word hub.old.addresses.items inbox (load_of load)) }
    ensures nodes { IfOk result (λ load. length plan.now.contexts ≤ vec_capacity load.team.nodes) }
    ensures split { IfOk result (λ _. AreSplitOff 1 hub.old.addresses.items hub.old.seat
        hub.new.addresses.items hub.new.seat) }
{
    let nodes = Vec::with_capacity(alloc, plan.system().contexts().len())?;
    let addresses = split_each(alloc, &mut hub.addresses)?;
    let seat = draw.split(&mut hub.seat, SEAT_ROOM)?;
    let team = Team {
        nodes,
        addresses,
        seat,
    };
    Ok(Load {
        team,
        inbox,
        begun: false,
        left: awaited(plan, group, groups),
    })
}

/// A load for each of these inboxes, which are those of all groups.
fn loads_of<O: Oracle>(
    alloc: Global,
    plan: &Plan,
    groups: u32,
    draw: &Draw,
    hub: &mut Hub,
    inboxes: Vec<Inbox>,
) -> Result<Vec<Load<O>>, Memory>
    requires groups { (0 < groups) × (groups ≤ 64) }
    requires word { hub.old.seat.word ≡ draw.now.word }
    requires account { hub.old.seat.account.left ≡ 1 + seat_room * groups }
    requires wires { AreWires plan.now groups groups hub.old.addresses.items inboxes.items }
    ensures loads { IfOk result (λ loads. AreNewLoads plan.now groups groups
        hub.old.seat.account.top draw.now.word hub.old.addresses.items inboxes.items
        (map load_of loads.items)) }
    ensures room { IfOk result (λ loads. AllByRecursion
        (λ load. length plan.now.contexts ≤ vec_capacity load.team.nodes) loads.items) }
    ensures hub { IfOk result (λ _. AreSplitOff groups hub.old.addresses.items hub.old.seat
        hub.new.addresses.items hub.new.seat) }
{
    let mut loads = Vec::new(alloc);
    for inbox in inboxes {
        let group = loads.len() as u32;
        loads.push(load_for(alloc, plan, group, groups, draw, hub, inbox)?)?;
    }
    Ok(loads)
}

/// The equipment of so many groups. The word begins with the number of the questions that were
/// asked before.
pub(crate) fn equipment_of<O: Oracle>(
    alloc: Global,
    plan: &Arc<Plan>,
    asked: u64,
    groups: u32,
) -> Result<Equipment<O>, Memory>
    requires groups { (0 < groups) × (groups ≤ 64) }
    requires few { asked ≤ seat_room }
    ensures equipped { IfOk result (λ e. IsEquipment
        (arc_value plan.now) groups asked e.draw e.hub.addresses.items e.hub.seat
        (map load_of e.loads.items)) }
    ensures room { IfOk result (λ e. AllByRecursion
        (λ load. length (arc_value plan.now).contexts
        ≤ vec_capacity load.team.nodes) e.loads.items) }
{
    let Wires { addresses, inboxes } = wires_of(alloc, plan, groups)?;
    let (draw, seat) = Draw::new(alloc, asked, SEAT_ROOM * groups as u64 + 1)?;
    let mut hub = Hub { addresses, seat };
    let loads = loads_of(alloc, plan, groups, &draw, &mut hub, inboxes)?;
    Ok(Equipment { draw, hub, loads })
}
