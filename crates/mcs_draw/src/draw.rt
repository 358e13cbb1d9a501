//! The word, and what its seats do with it.

ghost use Rattle.std.specs.Prelude.{◌≡◌, ◌+◌, ◌^◌, ◌<◌, ◌≤◌, IfOk, OnOk, OnErr};
ghost use Rattle.mcs_draw.specs.Budget.{first_account, after_draw, after_split, split_off};
ghost use Rattle.mcs_draw.specs.Budget.{after_join};

use crate::account::{Terms, View};
use crate::budget::{Budget, Cut, Draws, Gather, Looks, Part};
use crate::closed::Closed;
use crate::seat::Seat;
use atomic_table::Table;
use mcs_base::Memory;
use std::alloc::Global;
use std::marker::{Brand, Model};

/// An atomic counter from which several threads draw through one reference, each by a seat of its
/// own. It begins at `base`, and all seats together draw at most `room`. Every seat that is passed
/// to a call has to be one of this word.
pub struct Draw {
    table: Table<(), View, Terms, Budget, Global>,
}

impl Drop for Draw {
    fn drop(self) {
        let Draw { table: _ } = self;
    }
}

impl Model for Draw {
    ghost use Rattle.mcs_draw.specs.Seats.{DrawData, HasOneWord};

    ghost Value = { DrawData };

    ghost view = { λ d. record {
      word = d.table.shared.table_id;
      base = d.table.shared.key.base;
      room = d.table.shared.key.room;
    } };

    ghost invariant = { λ d. HasOneWord d.table.shared.table_id };
}

impl Draw {
    /// A word that begins at `base`, and its first seat, which may draw all of `room`. The sum of
    /// the two has to be below 2^63.
    pub fn new(alloc: Global, base: u64, room: u64) -> Result<(Draw, Seat), Memory>
        requires { base + room < 2 ^ 63 }
        ensures draw { IfOk result (λ r. (r.0.base ≡ base) × (r.0.room ≡ room)) }
        ensures seat { IfOk result (λ r. (r.1.word ≡ r.0.word)
            × (r.1.account ≡ first_account base room)) }
    {
        let (table, token) = Table::of_words(alloc, &[base], &Terms { base, room })?;
        let seat = Seat {
            token,
            left: room,
            drawn: 0,
        };
        Ok((Draw { table }, seat))
    }

    /// Moves a part of what the seat may still draw to a new seat. The part has to be at least 1,
    /// and less than what is left. If there is no memory, the seat stays as it was.
    pub fn split(&self, seat: &mut Seat, part: u64) -> Result<Seat, Memory>
        requires word { seat.old.word ≡ self.now.word }
        requires part { (0 < part) × (part < seat.old.account.left) }
        ensures kept { OnOk result ((seat.new.word ≡ seat.old.word)
            × (seat.new.account ≡ after_split part seat.old.account)) }
        ensures moved { IfOk result (λ new. (new.word ≡ seat.old.word)
            × (new.account ≡ split_off part seat.old.account)) }
        ensures refused { OnErr result (seat.new ≡ seat.old) }
    {
        Ok(self.cut::<Brand>(seat, part))
    }

    /// Moves a part, which the call chooses, to a new seat.
    fn cut<P: Part>(&self, seat: &mut Seat, part: u64) -> Seat
        requires picked { part ≡ P.part }
        requires word { seat.old.word ≡ self.now.word }
        requires part { (0 < part) × (part < seat.old.account.left) }
        ensures kept { (seat.new.word ≡ seat.old.word)
            × (seat.new.account ≡ after_split part seat.old.account) }
        ensures moved { (result.word ≡ seat.old.word)
            × (result.account ≡ split_off part seat.old.account) }
    {
        let token = self.table.shared.split_seat::<Cut<P>>(&mut seat.token);
        seat.left -= part;
        Seat {
            token,
            left: part,
            drawn: 0,
        }
    }

    /// Adds what `other` may still draw, and what it has drawn, to the seat. No memory is needed.
    pub fn join(&self, seat: &mut Seat, other: Seat)
        requires word { (seat.old.word ≡ self.now.word) × (other.word ≡ self.now.word) }
        ensures word { seat.new.word ≡ seat.old.word }
        ensures account { seat.new.account ≡ after_join seat.old.account other.account }
    {
        let Seat { token, left, drawn } = other;
        self.table
            .shared
            .join_seat::<Gather>(&mut seat.token, token);
        self.table.shared.load::<Looks>(&mut seat.token, 0);
        seat.left += left;
        seat.drawn += drawn;
    }

    /// Adds the amount to the word in one atomic step, and returns the new total. The amount has to
    /// be at most what the seat may still draw. No memory is needed.
    pub fn draw(&self, seat: &mut Seat, amount: u64) -> u64
        requires word { seat.old.word ≡ self.now.word }
        requires amount { amount ≤ seat.old.account.left }
        ensures word { seat.new.word ≡ seat.old.word }
        ensures account { seat.new.account ≡ after_draw amount result seat.old.account }
        ensures rises { seat.old.account.top + amount ≤ result }
    {
        let found = self
            .table
            .shared
            .fetch_add::<Draws>(&mut seat.token, 0, amount);
        seat.left -= amount;
        seat.drawn += amount;
        found + amount
    }

    /// The final state of the word, once every other seat was joined to this one: what the seat may
    /// still draw and what it has drawn have to add up to the room. The total is the base plus all
    /// that was drawn. It is also the greatest total that a draw returned, or the base if there was
    /// no draw. No memory is needed.
    pub fn close(self, seat: Seat) -> Closed
        requires word { seat.word ≡ self.word }
        requires whole { seat.account.left + seat.account.drawn ≡ self.room }
        ensures total { result.total ≡ self.base + result.draws }
        ensures draws { result.draws ≡ seat.account.drawn }
        ensures top { result.total ≡ seat.account.top }
    {
        let Seat {
            token,
            left: _,
            drawn,
        } = seat;
        let Draw { table } = self;
        let closed = table.close_with(token);
        let total = closed.word(0);
        closed.free();
        Closed {
            total,
            draws: drawn,
        }
    }
}
