//! Wires that nobody uses any more.

ghost use Rattle.std.specs.Prelude.{◌≡◌, ◌++◌, [], length, IfOk};
ghost use Rattle.crossbeam_channel.specs.Claims.{view, IsSeatAt};
ghost use Rattle.crossbeam_channel.specs.Ends.{receives_on};
ghost use Rattle.mcs_wire.specs.Bags.{AreTogether};

use crate::address::Address;
use crate::inbox::Inbox;
use crate::view::View;
use crate::wired::{Gather, Receiver, TakesAll};
use crossbeam_channel::Pass;
use mcs_base::Memory;
use mcs_node::Letter;
use std::alloc::Global;
use std::marker::Model;
use std::sync::Wait;

/// A wire that nobody uses any more: which letters were sent by it, which of them were taken, and
/// which were left. Only `settle` makes it.
pub struct Settled {
    pass: Pass<Letter, View>,
    sent: u64,
    got: u64,
    left: Vec<Letter>,
}

impl Drop for Settled {
    fn drop(self) {
        let Settled {
            pass: _,
            sent: _,
            got: _,
            left: _,
        } = self;
    }
}

impl Model for Settled {
    ghost use Rattle.crossbeam_channel.specs.Claims as claims;
    ghost use Rattle.mcs_wire.specs.Ends.{IsSettled, SettledData, settled_of};
    ghost use Rattle.mcs_wire.specs.Codes.{coded_settled};

    ghost Value = { SettledData };

    ghost coded = { coded_settled };

    ghost view = { λ s. settled_of (claims.view s.pass) s.got s.left.items };

    ghost invariant = { λ s. IsSettled (claims.view s.pass) s.sent s.got s.left.items };
}

impl Settled {
    /// How many letters were sent.
    pub fn sent(&self) -> u64
        ensures { result ≡ length self.now.sent }
    {
        self.sent
    }

    /// How many letters were taken from the inbox.
    pub fn got(&self) -> u64
        ensures { result ≡ length self.now.got }
    {
        self.got
    }

    /// The letters that were sent and not taken, in the order of the inbox. As bags, they and those
    /// taken are those sent.
    pub fn left(&self) -> &[Letter]
        ensures left { result.now ≡ self.now.left }
        ensures together { AreTogether self.now.got self.now.left self.now.sent }
    {
        &self.left
    }
}

/// Ends a wire by its inbox and the address that has all its parts, since all others were joined to
/// it. It takes the letters that the inbox still holds. Without memory for them, the wire is
/// dropped with its letters.
pub fn settle<R: Wait>(
    rt: &R,
    alloc: Global,
    address: Address,
    inbox: Inbox,
) -> Result<Settled, Memory>
    requires wire { inbox.wire ≡ address.wire }
    requires all { address.parts ≡ address.wire.addresses }
    ensures plan { IfOk result (λ settled. settled.plan ≡ address.wire.plan) }
    ensures sent { IfOk result (λ settled. settled.sent ≡ address.sent) }
    ensures got { IfOk result (λ settled. settled.got ≡ inbox.taken) }
    ensures together { IfOk result (λ settled. AreTogether settled.got settled.left settled.sent) }
{
    let Address {
        sender,
        pass: mut whole,
        parts: _,
        sent,
    } = address;
    let Inbox { receiver, pass } = inbox;
    sender.absorb::<Gather>(&mut whole, pass);
    let left = drain(rt, alloc, &receiver, &mut whole)?;
    let got = sent - left.len() as u64;
    Ok(Settled {
        pass: whole,
        sent,
        got,
        left,
    })
}

/// Takes the letters that the channel still holds, by the pass that has the inbox and all parts.
fn drain<R: Wait>(
    rt: &R,
    alloc: Global,
    receiver: &Receiver,
    pass: &mut Pass<Letter, View>,
) -> Result<Vec<Letter>, Memory>
    requires at { IsSeatAt (receives_on receiver.now) pass.old }
    requires whole { ((view pass.old).reads ≡ 1)
        × ((view pass.old).parts ≡ (view pass.old).addresses) }
    ensures kept { IfOk result (λ _. ((view pass.new).plan ≡ (view pass.old).plan)
        × ((view pass.new).sent ≡ (view pass.old).sent)) }
    ensures taken { IfOk result (λ left. (view pass.new).taken
        ≡ (view pass.old).taken ++ left.items) }
    ensures together { IfOk result (λ _. AreTogether (view pass.new).taken []
        (view pass.new).sent) }
{
    let mut left = Vec::new(alloc);
    for _ in rt.forever() {
        match receiver.try_recv_as::<TakesAll, R>(rt, pass) {
            Ok(letter) => left.push(letter)?,
            Err(_) => return Ok(left),
        }
    }
    unreachable!()
}
