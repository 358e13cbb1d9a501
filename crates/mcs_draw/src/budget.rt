//! The rule (invariant) of a word, and what each kind of step does to the seats that take part.

ghost use Rattle.std.specs.Prelude.{ℕ};

use crate::account::{Terms, View};
use atomic_table::{Join, Play, Split, TableRule};
use std::marker::{Brand, PhantomData};

/// The rule of a word.
pub struct Budget;

impl TableRule<(), View, Terms> for Budget {
    ghost use Rattle.mcs_draw.specs.Steps.{KeepsWordRule, first_view};

    ghost holds = { KeepsWordRule };

    ghost first = { first_view };
}

/// A draw: its amount is subtracted from what is left, and the new total becomes the greatest total
/// of the seat.
pub struct Draws;

impl Play<(), View> for Draws {
    ghost use Rattle.mcs_draw.specs.Steps.{DrawTells};

    ghost then = { DrawTells };
}

/// A read of the word, which changes nothing.
pub struct Looks;

impl Play<(), View> for Looks {
    ghost use Rattle.mcs_draw.specs.Steps.{LookTells};

    ghost then = { LookTells };
}

/// How much a split moves. Each call chooses it.
pub trait Part {
    ghost part: { ℕ };
}

impl Part for Brand {
    ghost part = { 0 };
}

/// A split: a part of what is left moves to a new seat.
pub struct Cut<P: Part> {
    of: PhantomData<P>,
}

impl<P: Part> Split<View> for Cut<P> {
    ghost use Rattle.mcs_draw.specs.Budget.{after_split, split_off, seated};

    ghost left = { λ v. seated (after_split P.part v.account) };

    ghost right = { λ v. seated (split_off P.part v.account) };
}

/// A join: one seat gets the sum of both accounts, and the other one is gone.
pub struct Gather;

impl Join<View> for Gather {
    ghost use Rattle.mcs_draw.specs.Budget.{after_join, joined_away, seated};

    ghost both = { λ v w. seated (after_join v.account w.account) };

    ghost spent = { joined_away };
}
