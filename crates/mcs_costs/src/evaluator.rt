//! Evaluators that tell the cheapest diagnoses alone.

ghost use Rattle.std.specs.Prelude.{◌≡◌, false, IfOk, IfErr, OnOk};
ghost use Rattle.mcs_states.specs.Evaluators.{KeepsRest, HasDone, HasHalted};
ghost use Rattle.mcs_costs.specs.Settling.{IsSettling};

use mcs_base::Marks;
use mcs_states::{Evaluator, Halt};
use std::alloc::Global;

/// What the questions of a level tell of the cheapest diagnoses.
#[derive(Drop)]
pub enum Settling {
    /// These are all of them, in the order of pairs.
    Settled(Vec<Marks>),
    /// No level up to this one settles them.
    NoneUpTo {
        level: u32,
        /// Diagnoses with at most as many marks as the questions were asked for: the cheapest of
        /// those that are known, or none.
        so_far: Vec<Marks>,
    },
}

/// An evaluator that can tell the cheapest diagnoses without the other minimal ones, of which there
/// may be many.
pub trait CheapestEvaluator: Evaluator {
    /// Asks the questions of the level that were not asked before.
    fn reach(&mut self, alloc: Global, level: u32) -> Result<(), Halt>
        requires { (Self.stands self.old).halted ≡ false }
        ensures done { OnOk result (HasDone (Self.stands self.old) (Self.stands self.new) level) }
        ensures halt { IfErr result (HasHalted (Self.stands self.old) (Self.stands self.new) level) }
        ensures rest { KeepsRest (Self.stands self.old) (Self.stands self.new) };

    /// The cheapest diagnoses, all of them, if they are known from the questions of the level. They
    /// are if one of them costs less than one mark more than so many would at the least weight of a
    /// rule, or if there are diagnoses and the level is at least the number of rules.
    ///
    /// Otherwise `NoneUpTo` a level, this one or a higher one, of which neither holds. If this is
    /// at least the number of rules, there is no diagnosis. `so_far` are diagnoses with at most
    /// `level` marks, which may be shown while contexts still have few answers.
    fn cheapest(&mut self, alloc: Global, level: u32) -> Result<Settling, Halt>
        requires { (Self.stands self.old).halted ≡ false }
        ensures told { IfOk result (IsSettling (Self.stands self.old).system level) }
        ensures done { OnOk result (HasDone (Self.stands self.old) (Self.stands self.new) level) }
        ensures halt { IfErr result (HasHalted (Self.stands self.old) (Self.stands self.new) level) }
        ensures rest { KeepsRest (Self.stands self.old) (Self.stands self.new) };
}
