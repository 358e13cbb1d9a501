//! The letters that nodes put out, on their way to the inboxes.

ghost use Rattle.std.specs.Prelude.{◌≡◌, ◌+◌, ◌<◌, ◌^◌, [], length};
ghost use Rattle.mcs_crew.specs.Teams.{AreNamed, HaveSent};
ghost use Rattle.mcs_crew.specs.Weights.{sent_weight};

use mcs_node::Node;
use mcs_states::Oracle;
use mcs_wire::Address;
use std::sync::Wait;

/// Sends all letters that the node has put out, each to the inbox of its addressee's group.
pub(crate) fn send_out<O: Oracle, R: Wait>(rt: &R, addresses: &mut [Address], node: &mut Node<O>)
    requires some_wire { 0 < length addresses.old }
    requires few { sent_weight (λ _. 1) addresses.old + length node.old.outbox < 2 ^ 62 }
    requires named { AreNamed node.old.outbox addresses.old }
    ensures out { node.new ≡ record node.old { outbox = [] } }
    ensures sent { HaveSent node.old.outbox addresses.old addresses.new }
{
    while let Some(letter) = node.next_out() {
        let group = letter.to() as usize % addresses.len();
        addresses[group].send(rt, letter);
    }
}
