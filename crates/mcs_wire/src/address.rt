//! Addresses: the ends of a wire that send.

ghost use Rattle.std.specs.Prelude.{◌≡◌, ◌+◌, ◌-◌, ◌^◌, ◌<◌, ◌≤◌, length, IfOk, OnOk, OnErr};
ghost use Rattle.crossbeam_channel.specs.Claims.{view, IsSeatAt};
ghost use Rattle.crossbeam_channel.specs.Ends.{sends_on};
ghost use Rattle.mcs_wire.specs.Wires.{after_send};
ghost use Rattle.mcs_wire.specs.Ends.{less_one, one_part, with_joined, with_sent};

use crate::view::View;
use crate::wired::{Cut, Gather, Looks, Sender, Sends};
use crossbeam_channel::Pass;
use mcs_base::Memory;
use mcs_node::Letter;
use std::marker::Model;
use std::sync::Wait;

/// An end that sends letters to the inbox of its wire. It stands for one or more of the wire's
/// addresses, its parts. `wire` makes the first address, and `split` each other one.
#[derive(Drop)]
pub struct Address {
    pub(crate) sender: Sender,
    pub(crate) pass: Pass<Letter, View>,
    pub(crate) parts: u32,
    pub(crate) sent: u64,
}

impl Model for Address {
    ghost use Rattle.crossbeam_channel.specs.Claims as claims;
    ghost use Rattle.crossbeam_channel.specs.Ends.{sends_on};
    ghost use Rattle.mcs_wire.specs.Ends.{AddressData, IsAddress, address_of};
    ghost use Rattle.mcs_wire.specs.Codes.{coded_address};

    ghost Value = { AddressData };

    ghost coded = { coded_address };

    ghost view = { λ a. address_of (sends_on a.sender) (claims.view a.pass) };

    ghost invariant = { λ a. IsAddress (sends_on a.sender) a.pass a.parts a.sent };
}

impl Address {
    /// How many of the wire's addresses it stands for.
    pub fn parts(&self) -> u32
        ensures { result ≡ self.now.parts }
    {
        self.parts
    }

    /// How many letters were sent by it and by the addresses that were joined into it.
    pub fn sent(&self) -> u64
        ensures { result ≡ length self.now.sent }
    {
        self.sent
    }

    /// Moves one part to a new address, which has sent nothing. The address has to have at least
    /// two. If there is no memory, it stays as it was.
    pub fn split(&mut self) -> Result<Address, Memory>
        requires { 2 ≤ self.old.parts }
        ensures kept { OnOk result (self.new ≡ less_one self.old) }
        ensures moved { IfOk result (λ new. new ≡ one_part self.old) }
        ensures refused { OnErr result (self.new ≡ self.old) }
    {
        let sender = self.sender.try_clone()?;
        let pass = self.sender.another::<Cut>(&mut self.pass);
        self.parts -= 1;
        Ok(Address {
            sender,
            pass,
            parts: 1,
            sent: 0,
        })
    }

    /// Adds the parts of `other`, and the letters that it has sent. The two numbers of letters have
    /// to add up to less than 2^63. No memory is needed.
    pub fn join(&mut self, other: Address)
        requires wire { other.wire ≡ self.old.wire }
        requires sent { length self.old.sent + length other.sent < 2 ^ 63 }
        ensures { self.new ≡ with_joined other self.old }
    {
        let Address {
            sender: _,
            pass,
            parts,
            sent,
        } = other;
        self.sender.absorb::<Gather>(&mut self.pass, pass);
        self.sender.learn_as::<Looks>(&mut self.pass);
        self.parts += parts;
        self.sent += sent;
    }

    /// Sends the letter, which has to name the plan of the wire. It may wait as long as the inbox
    /// is full. Fewer than 2^63 - 1 letters may have been sent. No memory is needed.
    pub fn send<R: Wait>(&mut self, rt: &R, letter: Letter)
        requires sent { length self.old.sent < 2 ^ 63 - 1 }
        requires plan { letter.plan ≡ self.old.wire.plan }
        ensures { self.new ≡ with_sent letter self.old }
    {
        send_on(rt, &self.sender, &mut self.pass, letter);
        self.sent += 1;
    }
}

/// Sends the letter, and tries again if the channel hands it back.
fn send_on<R: Wait>(rt: &R, sender: &Sender, pass: &mut Pass<Letter, View>, letter: Letter)
    requires at { IsSeatAt (sends_on sender.now) pass.old }
    requires parts { 0 < (view pass.old).parts }
    requires plan { letter.plan ≡ (view pass.old).plan }
    ensures at { IsSeatAt (sends_on sender.now) pass.new }
    ensures sent { view pass.new ≡ after_send letter (view pass.old) }
{
    let mut letter = letter;
    for _ in rt.forever() {
        match sender.send_as::<Sends, R>(rt, pass, letter) {
            Ok(()) => return,
            Err(back) => letter = back.into_inner(),
        }
    }
    unreachable!()
}
