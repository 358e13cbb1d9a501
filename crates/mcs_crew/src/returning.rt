//! All ends of the wires and all seats of the word come back to the caller, which settles the wires
//! and closes the word.

ghost use Rattle.std.specs.Prelude.{◌≡◌, ℕ, IfOk, Some, length, map, slice_get};
ghost use Rattle.mcs_draw.specs.Budget.{after_join};
ghost use Rattle.mcs_wire.specs.Ends.{AddressData, InboxData};
ghost use Rattle.mcs_crew.specs.Calls.{without_nodes};
ghost use Rattle.mcs_crew.specs.Hubs.{AreJoinable, AreSettled, CanComeBack, CanEnd, HaveComeBack};
ghost use Rattle.mcs_crew.specs.Hubs.{HaveEnded, joined_each};

use crate::equipment::Hub;
use crate::load::{Load, Team};
use mcs_base::Memory;
use mcs_draw::{Closed, Draw};
use mcs_states::Oracle;
use mcs_wire::{Address, Inbox, Settled, settle};
use std::alloc::Global;
use std::collections::VecDeque;
use std::sync::Wait;

/// Joins each address with that of the same wire.
fn join_each(addresses: &mut [Address], others: Vec<Address>)
    requires { AreJoinable addresses.old others.items }
    ensures { addresses.new ≡ joined_each addresses.old others.items }
{
    let mut group = 0;
    for other in others {
        addresses[group].join(other);
        group += 1;
    }
}

impl Hub {
    /// Takes back the addresses and the seat of a load, and hands out its inbox.
    fn take_back<O: Oracle>(&mut self, draw: &Draw, load: Load<O>) -> Inbox
        requires addresses { AreJoinable self.old.addresses.items load.team.addresses.items }
        requires word { (self.old.seat.word ≡ draw.now.word)
            × (load.team.seat.word ≡ draw.now.word) }
        ensures inbox { result ≡ load.inbox }
        ensures addresses { self.new.addresses.items
            ≡ joined_each self.old.addresses.items load.team.addresses.items }
        ensures word { self.new.seat.word ≡ self.old.seat.word }
        ensures seat { self.new.seat.account
            ≡ after_join self.old.seat.account load.team.seat.account }
    {
        let Load { team, inbox, .. } = load;
        let Team {
            addresses,
            seat,
            ..
        } = team;
        join_each(&mut self.addresses, addresses);
        draw.join(&mut self.seat, seat);
        inbox
    }

    /// Takes back the addresses and the seats of all loads, and hands out their inboxes, in order.
    fn take_all_back<O: Oracle>(
        &mut self,
        alloc: Global,
        draw: &Draw,
        loads: Vec<Load<O>>,
    ) -> Result<Vec<Inbox>, Memory>
        requires { (asked : ℕ) × CanComeBack asked draw.now.word self.old.addresses.items
            self.old.seat (map without_nodes loads.items) }
        ensures inboxes { IfOk result (λ inboxes. inboxes.items ≡ map (λ l. l.inbox) loads.items) }
        ensures back { IfOk result (λ _. (asked : ℕ)
            → CanComeBack asked draw.now.word self.old.addresses.items self.old.seat
            (map without_nodes loads.items)
            → HaveComeBack asked self.old.addresses.items
            (map without_nodes loads.items) self.new.addresses.items self.new.seat) }
        ensures word { self.new.seat.word ≡ self.old.seat.word }
    {
        let mut inboxes = Vec::new(alloc);
        for load in loads {
            inboxes.push(self.take_back(draw, load))?;
        }
        Ok(inboxes)
    }
}

/// Settles all wires: of each this is the inbox, and the address that has all its parts.
fn settle_all<R: Wait>(
    rt: &R,
    alloc: Global,
    addresses: Vec<Address>,
    inboxes: Vec<Inbox>,
) -> Result<Vec<Settled>, Memory>
    requires each { (g : ℕ) (a : AddressData) (i : InboxData)
        → slice_get addresses.items g ≡ Some a → slice_get inboxes.items g ≡ Some i
        → (i.wire ≡ a.wire) × (a.parts ≡ a.wire.addresses) }
    requires many { length inboxes.items ≡ length addresses.items }
    ensures { IfOk result (λ wires. AreSettled addresses.items inboxes.items wires.items) }
{
    let mut inboxes = VecDeque::from(inboxes);
    let mut wires = Vec::new(alloc);
    for address in addresses {
        let Some(inbox) = inboxes.pop_front() else {
            unreachable!()
        };
        wires.push(settle(rt, alloc, address, inbox)?)?;
    }
    Ok(wires)
}

/// The wires of a round that is over, and its word.
#[derive(Drop)]
pub(crate) struct Ended {
    pub wires: Vec<Settled>,
    pub word: Closed,
}

/// Takes all ends and seats back from the loads, settles the wires, and closes the word.
pub(crate) fn end<O: Oracle, R: Wait>(
    rt: &R,
    alloc: Global,
    draw: Draw,
    hub: Hub,
    loads: Vec<Load<O>>,
) -> Result<Ended, Memory>
    requires { (asked : ℕ)
        × CanEnd asked draw hub.addresses.items hub.seat (map without_nodes loads.items) }
    ensures { IfOk result (λ ended. (asked : ℕ)
        → CanEnd asked draw hub.addresses.items hub.seat (map without_nodes loads.items)
        → HaveEnded asked hub.addresses.items (map without_nodes loads.items) ended.wires.items
        ended.word) }
{
    let mut hub = hub;
    let inboxes = hub.take_all_back(alloc, &draw, loads)?;
    let Hub { addresses, seat } = hub;
    let word = draw.close(seat);
    let wires = settle_all(rt, alloc, addresses, inboxes)?;
    Ok(Ended { wires, word })
}
