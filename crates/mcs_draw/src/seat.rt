//! Seats: shares of what may be drawn from a word.

ghost use Rattle.std.specs.Prelude.{◌≡◌};

use crate::account::View;
use atomic_table::Seat as Token;
use std::marker::Model;

/// A share of what may be drawn from a word. `Draw::new` makes the first seat, and `Draw::split`
/// each other one.
#[derive(Drop)]
pub struct Seat {
    pub(crate) token: Token<(), View>,
    pub(crate) left: u64,
    pub(crate) drawn: u64,
}

impl Model for Seat {
    ghost use Rattle.std.specs.Prelude.{◌≡◌};
    ghost use Rattle.mcs_draw.specs.Seats.{SeatData, IsSeat};

    ghost Value = { SeatData };

    ghost view = { λ s. record { word = s.token.table_id; account = s.token.me.0.account } };

    ghost invariant = { λ s. IsSeat s.token.me s.left s.drawn };
}

impl Seat {
    /// What the seat may still draw.
    pub fn left(&self) -> u64
        ensures { result ≡ self.now.account.left }
    {
        self.left
    }
}
