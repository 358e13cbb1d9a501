//! New wires.

ghost use Rattle.std.specs.Prelude.{◌≡◌, ◌<◌, [], IfOk};
ghost use Rattle.std.specs.Arc.{arc_value};
ghost use Rattle.crossbeam_channel.specs.Claims.{view, IsSeatAt};
ghost use Rattle.crossbeam_channel.specs.Ends.{sends_on};
ghost use Rattle.mcs_wire.specs.Wires.{address_view, inbox_view};
ghost use Rattle.mcs_wire.specs.Steps.{unnamed};

use crate::address::Address;
use crate::inbox::Inbox;
use crate::view::View;
use crate::wired::{Begin, Sender, Terms};
use crossbeam_channel::{Pass, bounded_with};
use mcs_base::Memory;
use mcs_import::Plan;
use mcs_node::Letter;
use std::alloc::Global;
use std::marker::Brand;
use std::sync::Arc;

/// The two ends of a new wire.
#[derive(Drop)]
pub struct Ends {
    /// The first address, which has all parts.
    pub address: Address,
    pub inbox: Inbox,
}

/// A wire for letters of the plan. Its inbox holds at most `capacity` letters, and it has so many
/// addresses, of which the first stands for all. Both numbers are at least 1. An address, or an
/// inbox, that is passed to a call together with another end has to be of the same wire.
pub fn wire(alloc: Global, plan: Arc<Plan>, capacity: usize, addresses: u32) -> Result<Ends, Memory>
    requires capacity { 0 < capacity }
    requires addresses { 0 < addresses }
    ensures one { IfOk result (λ ends. ends.inbox.wire ≡ ends.address.wire) }
    ensures wire { IfOk result (λ ends. (ends.address.wire.plan ≡ arc_value plan)
        × (ends.address.wire.addresses ≡ addresses)) }
    ensures address { IfOk result (λ ends. (ends.address.parts ≡ addresses)
        × (ends.address.sent ≡ [])) }
    ensures inbox { IfOk result (λ ends. ends.inbox.taken ≡ []) }
{
    let (sender, receiver, mut pass) = bounded_with(alloc, capacity)?;
    let first = begin::<Brand>(&sender, &mut pass, &plan, addresses);
    let address = Address {
        sender,
        pass: first,
        parts: addresses,
        sent: 0,
    };
    let inbox = Inbox { receiver, pass };
    Ok(Ends { address, inbox })
}

/// Gives a new channel its plan and its number of addresses, and makes the pass of the first
/// address.
fn begin<N: Terms>(
    sender: &Sender,
    pass: &mut Pass<Letter, View>,
    plan: &Plan,
    addresses: u32,
) -> Pass<Letter, View>
    requires picked { (plan.now ≡ N.plan) × (addresses ≡ N.addresses) }
    requires at { IsSeatAt (sends_on sender.now) pass.old }
    requires unnamed { view pass.old ≡ unnamed }
    ensures at { IsSeatAt (sends_on sender.now) pass.new × IsSeatAt (sends_on sender.now) result }
    ensures inbox { view pass.new ≡ inbox_view plan.now addresses [] }
    ensures address { view result ≡ address_view plan.now addresses addresses [] }
{
    sender.another::<Begin<N>>(pass)
}
