//! Minimal diagnoses, level by level.

ghost use Rattle.std.specs.Prelude.{◌≡◌, ◌↔◌, false, IsTrue, IfOk, IfErr};
ghost use Rattle.std.specs.Arc.{arc_value};
ghost use Rattle.mcs_sets.specs.Sets.{size};
ghost use Rattle.mcs_states.specs.Calls.{CanEvaluate, Evaluates};
ghost use Rattle.mcs_states.specs.Evaluators.{KeepsRest};
ghost use Rattle.mcs_diagnosis.specs.Courses.{CanShow, IsPast};
ghost use Rattle.mcs_diagnosis.specs.Diagnoses.{IsShownOf};
ghost use Rattle.mcs_diagnosis.specs.Taken.{HasTaken, HasTakenPairs, HasHaltedAt};

use crate::diagnosis::{Diagnosis, Level};
use crate::found::{diagnoses_of, pairs_at, show};
use mcs_base::{Marks, Pair};
use mcs_states::{Evaluator, Halt};
use mcs_system::System;
use std::alloc::Global;
use std::marker::Model;
use std::sync::Arc;

/// The minimal diagnoses of a system, by the number of their marks. The model is the evaluator and
/// the number of the next level.
pub struct Levels<E: Evaluator> {
    evaluator: E,
    system: Arc<System>,
    level: u32,
    // Whether the system is consistent; this is known after level 0.
    consistent: bool,
}

impl<E: Evaluator> Model for Levels<E> {
    ghost use Rattle.std.specs.Arc.{arc_value};
    ghost use Rattle.mcs_diagnosis.specs.Courses.{Course, IsCourse};

    ghost Value = { Course E };

    ghost view = { λ l. record { evaluator = l.evaluator; level = l.level } };

    ghost invariant = { λ l. IsCourse (E.stands l.evaluator)
        (arc_value l.system) l.level l.consistent };
}

impl<E: Evaluator> Levels<E> {
    /// The levels of the system, from level 0 on, found by an evaluator of this system.
    pub fn new(evaluator: E, system: Arc<System>) -> Levels<E>
        requires { CanEvaluate (arc_value system) (E.stands evaluator) }
        ensures { result ≡ record { evaluator = evaluator; level = 0 } }
    {
        let _few = system.bridges();
        Levels {
            evaluator,
            system,
            level: 0,
            consistent: false,
        }
    }

    // Whether there is no further level.
    fn is_past(&self) -> bool
        ensures { IsTrue result ↔ IsPast (E.stands self.now.evaluator).system self.now.level }
    {
        self.level > 0 && self.consistent || self.level as usize > self.system.bridges().len()
    }

    /// The minimal diagnoses of the next level, in the order of pairs. `Over` is returned exactly
    /// after level 0 of a consistent system, or after the level with as many marks as there are
    /// rules; no question is asked then. `Spent` and `Missing` are returned for the causes that a
    /// call of this level has; the evaluator has then halted with them.
    pub fn next(&mut self, alloc: Global) -> Result<Level, Halt>
        requires { (E.stands self.old.evaluator).halted ≡ false }
        ensures taken { IfOk result (HasTaken E.stands self.old self.new) }
        ensures halted { IfErr result (HasHaltedAt E.stands self.old self.new) }
        ensures rest { KeepsRest (E.stands self.old.evaluator) (E.stands self.new.evaluator) }
    {
        if self.is_past() {
            return Ok(Level::Over);
        }
        let found = diagnoses_of(alloc, &mut self.evaluator, &self.system, self.level)?;
        self.consistent = self.level == 0 && !found.is_empty();
        self.level += 1;
        Ok(Level::Found(found))
    }

    /// The pairs of the minimal diagnoses of the next level, in the order of pairs, without a state
    /// of each. `None` is returned exactly where `next` returns `Over`, and a halt for the same
    /// causes.
    pub fn next_pairs(&mut self, alloc: Global) -> Result<Option<Vec<Marks>>, Halt>
        requires { (E.stands self.old.evaluator).halted ≡ false }
        ensures taken { IfOk result (HasTakenPairs E.stands self.old self.new) }
        ensures halted { IfErr result (HasHaltedAt E.stands self.old self.new) }
        ensures rest { KeepsRest (E.stands self.old.evaluator) (E.stands self.new.evaluator) }
    {
        if self.is_past() {
            return Ok(None);
        }
        let pairs = pairs_at(alloc, &mut self.evaluator, self.level)?;
        self.consistent = self.level == 0 && !pairs.is_empty();
        self.level += 1;
        Ok(Some(pairs))
    }

    /// The diagnosis with this pair, with its first state and the rules that are active in it. The
    /// pair has to be a diagnosis of the system. The level of the call is the number of its marks;
    /// the next level stays the same.
    pub fn show(&mut self, alloc: Global, pair: Pair) -> Result<Diagnosis, Halt>
        requires { CanShow (E.stands self.old.evaluator) pair }
        ensures shown { IfOk result (IsShownOf (E.stands self.old.evaluator).system pair) }
        ensures call { Evaluates (size pair) (E.stands self.old.evaluator)
            (E.stands self.new.evaluator) result }
        ensures stays { self.new.level ≡ self.old.level }
    {
        show(alloc, &mut self.evaluator, &self.system, pair)
    }

    /// The number of the next level.
    pub fn level(&self) -> u32
        ensures { result ≡ self.now.level }
    {
        self.level
    }

    /// The evaluator.
    pub fn evaluator(&self) -> &E
        ensures { result.now ≡ self.now.evaluator }
    {
        &self.evaluator
    }

    /// The evaluator, handed back.
    pub fn into_evaluator(self) -> E
        ensures { result ≡ self.evaluator }
    {
        let Levels {
            evaluator,
            system: _,
            level: _,
            consistent: _,
        } = self;
        evaluator
    }
}
