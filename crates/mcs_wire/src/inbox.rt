//! Inboxes: the ends of a wire that take letters.

ghost use Rattle.std.specs.Prelude.{◌≡◌, IfSome, IfNone};
ghost use Rattle.crossbeam_channel.specs.Claims.{view, IsSeatAt};
ghost use Rattle.crossbeam_channel.specs.Ends.{receives_on};
ghost use Rattle.mcs_wire.specs.Wires.{after_take};
ghost use Rattle.mcs_wire.specs.Ends.{HasBeenEmpty, with_taken};

use crate::view::View;
use crate::wired::{Receiver, Takes};
use crossbeam_channel::Pass;
use mcs_node::Letter;
use std::marker::Model;
use std::sync::Wait;

/// The end of a wire that takes the letters, one after the other. `wire` makes it.
#[derive(Drop)]
pub struct Inbox {
    pub(crate) receiver: Receiver,
    pub(crate) pass: Pass<Letter, View>,
}

impl Model for Inbox {
    ghost use Rattle.crossbeam_channel.specs.Claims as claims;
    ghost use Rattle.crossbeam_channel.specs.Ends.{receives_on};
    ghost use Rattle.mcs_wire.specs.Ends.{InboxData, IsInbox, inbox_of};
    ghost use Rattle.mcs_wire.specs.Codes.{coded_inbox};

    ghost Value = { InboxData };

    ghost coded = { coded_inbox };

    ghost view = { λ i. inbox_of (receives_on i.receiver) (claims.view i.pass) };

    ghost invariant = { λ i. IsInbox (receives_on i.receiver) i.pass };
}

impl Inbox {
    /// Takes a letter. It may wait as long as there is none. No memory is needed.
    pub fn take<R: Wait>(&mut self, rt: &R) -> Letter
        ensures taken { self.new ≡ with_taken result self.old }
        ensures plan { result.plan ≡ self.old.wire.plan }
    {
        take_on(rt, &self.receiver, &mut self.pass)
    }

    /// Takes a letter if there is one. `None` is answered only if the inbox was empty at a moment
    /// of the call. No memory is needed.
    pub fn try_take<R: Wait>(&mut self, rt: &R) -> Option<Letter>
        ensures taken { IfSome result (λ letter. (self.new ≡ with_taken letter self.old)
            × (letter.plan ≡ self.old.wire.plan)) }
        ensures none { IfNone result ((self.new ≡ self.old) × HasBeenEmpty self.old) }
    {
        self.receiver
            .try_recv_as::<Takes, R>(rt, &mut self.pass)
            .ok()
    }
}

/// Takes a letter, and tries again if the channel hands out none.
fn take_on<R: Wait>(rt: &R, receiver: &Receiver, pass: &mut Pass<Letter, View>) -> Letter
    requires at { IsSeatAt (receives_on receiver.now) pass.old }
    requires reads { (view pass.old).reads ≡ 1 }
    ensures at { IsSeatAt (receives_on receiver.now) pass.new }
    ensures taken { view pass.new ≡ after_take result (view pass.old) }
    ensures plan { result.plan ≡ (view pass.old).plan }
{
    for _ in rt.forever() {
        if let Ok(letter) = receiver.recv_as::<Takes, R>(rt, pass) {
            return letter;
        }
    }
    unreachable!()
}
