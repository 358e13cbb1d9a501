//! Forks: oracles beside which others may be asked.

ghost use Rattle.std.specs.Prelude.{◌≡◌, ◌++◌, [], IfOk, OnOk};
ghost use Rattle.mcs_states.specs.Oracles.{with_journal};

use crate::oracle::Oracle;
use mcs_base::Memory;
use std::alloc::Global;

/// An oracle beside which others may be asked about the same context, so that its questions can be
/// asked in parts at the same time. What the others were asked is taken over by the first.
pub trait Fork: Oracle {
    /// Another oracle of the same context, which holds the same answers, and of which nothing was
    /// asked. It may take over what forks before it have found; nothing that this oracle stands for
    /// changes.
    fn fork(&mut self, alloc: Global) -> Result<Self, Memory>
        ensures forked { IfOk result (λ other. Self.stands other
            ≡ with_journal [] (Self.stands self.old)) }
        ensures same { Self.stands self.new ≡ Self.stands self.old };

    /// Takes over what the other oracle of the same context was asked: its journal, behind the own,
    /// and what it kept. After want of memory nothing but the journal may have changed.
    fn absorb(&mut self, alloc: Global, other: Self) -> Result<(), Memory>
        requires same { with_journal [] (Self.stands other)
            ≡ with_journal [] (Self.stands self.old) }
        ensures journal { OnOk result (Self.stands self.new
            ≡ with_journal ((Self.stands self.old).journal ++ (Self.stands other).journal)
            (Self.stands self.old)) }
        ensures rest { with_journal [] (Self.stands self.new)
            ≡ with_journal [] (Self.stands self.old) };
}
