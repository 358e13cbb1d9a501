//! The rule (invariant) of a wire, and what each kind of step does to the ends that take part.

ghost use Rattle.std.specs.Prelude.{ℕ};
ghost use Rattle.mcs_system.specs.Plain as plain;

use crate::view::View;
use crossbeam_channel::protocol::{Join, Lesson, Outcome, Protocol, Split};
use crossbeam_channel::{RuledReceiver, RuledSender};
use mcs_node::Letter;
use std::marker::{Brand, PhantomData};

/// The half of a wire's channel that sends.
pub(crate) type Sender = RuledSender<Letter, View, Wired>;

/// The half of a wire's channel that receives.
pub(crate) type Receiver = RuledReceiver<Letter, View, Wired>;

/// The rule of a wire.
pub struct Wired;

impl Protocol<Letter, View> for Wired {
    ghost use Rattle.mcs_wire.specs.Steps.{KeepsWireRule, unnamed};

    ghost holds = { KeepsWireRule };

    ghost first = { unnamed };
}

/// The plan of a wire, and how many addresses it has. Each call of `wire` chooses them.
pub trait Terms {
    ghost plan: { plain.System };

    ghost addresses: { ℕ };
}

impl Terms for Brand {
    ghost use Rattle.mcs_wire.specs.Wires.{no_system};

    ghost plan = { no_system };

    ghost addresses = { 0 };
}

/// The beginning of a wire: its channel gets a plan and a number of addresses, and a first address,
/// which stands for all of them.
pub struct Begin<N: Terms> {
    of: PhantomData<N>,
}

impl<N: Terms> Split<View> for Begin<N> {
    ghost use Rattle.std.specs.Prelude.{[]};
    ghost use Rattle.mcs_wire.specs.Wires.{address_view, inbox_view};

    ghost left = { λ v. inbox_view N.plan N.addresses [] };

    ghost right = { λ v. address_view N.plan N.addresses N.addresses [] };
}

/// A split: one part moves to a new address.
pub struct Cut;

impl Split<View> for Cut {
    ghost use Rattle.mcs_wire.specs.Wires.{after_split, split_off};

    ghost left = { after_split };

    ghost right = { split_off };
}

/// A join: one end gets all that both have, and the other one is gone.
pub struct Gather;

impl Join<View> for Gather {
    ghost use Rattle.mcs_wire.specs.Wires.{after_join, joined_away};

    ghost both = { λ v w. after_join w v };

    ghost spent = { joined_away };
}

/// A letter that is sent.
pub struct Sends;

impl Outcome<Letter, View> for Sends {
    ghost use Rattle.mcs_wire.specs.Steps.{SendTells};

    ghost then = { SendTells };
}

impl Lesson<Letter, View> for Sends {
    ghost use Rattle.mcs_wire.specs.Steps.{IsPossible};

    ghost fact = { IsPossible };
}

/// A letter that is taken, or a look that finds none.
pub struct Takes;

impl Outcome<Letter, View> for Takes {
    ghost use Rattle.mcs_wire.specs.Steps.{TakeTells};

    ghost then = { TakeTells };
}

impl Lesson<Letter, View> for Takes {
    ghost use Rattle.mcs_wire.specs.Steps.{IsPossible};

    ghost fact = { IsPossible };
}

/// The same by the end that stands for the inbox and for all addresses.
pub struct TakesAll;

impl Outcome<Letter, View> for TakesAll {
    ghost use Rattle.mcs_wire.specs.Steps.{TakeTells};

    ghost then = { TakeTells };
}

impl Lesson<Letter, View> for TakesAll {
    ghost use Rattle.mcs_wire.specs.Steps.{KnowsAll};

    ghost fact = { KnowsAll };
}

/// A look after a join, which changes nothing.
pub struct Looks;

impl Lesson<Letter, View> for Looks {
    ghost use Rattle.mcs_wire.specs.Steps.{PartsFit};

    ghost fact = { PartsFit };
}
