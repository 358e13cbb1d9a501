//! The final state of a word.

ghost use Rattle.std.specs.Prelude.{◌≡◌};

use std::marker::Model;

/// The final state of a word. Only `Draw::close` makes it.
#[derive(Debug, Drop)]
pub struct Closed {
    pub(crate) total: u64,
    pub(crate) draws: u64,
}

impl Model for Closed {
    ghost use Rattle.mcs_draw.specs.Seats.{ClosedData};

    ghost Value = { ClosedData };

    ghost view = { λ c. record { total = c.total; draws = c.draws } };
}

impl Closed {
    /// The value with which the word ended: its base plus all that was drawn.
    pub fn total(&self) -> u64
        ensures { result ≡ self.now.total }
    {
        self.total
    }

    /// All that was drawn.
    pub fn draws(&self) -> u64
        ensures { result ≡ self.now.draws }
    {
        self.draws
    }
}
