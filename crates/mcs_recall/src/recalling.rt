//! An evaluator that keeps what another one has told.

ghost use Rattle.std.specs.Prelude.{◌≡◌};
ghost use Rattle.std.specs.Arc.{arc_value};
ghost use Rattle.mcs_recall.specs.Told.{IsToldOf};

use crate::shown::{Shown, keep, place_from};
use crate::told::{Told, cheapest_told, kept_repairs};
use mcs_base::{Marks, Pair, Vars};
use mcs_costs::{CheapestEvaluator, Settling};
use mcs_states::{Evaluator, Halt};
use mcs_system::System;
use std::alloc::Global;
use std::marker::Model;
use std::sync::Arc;

/// An evaluator that keeps what another one has told, the first states and the minimal diagnoses of
/// the last level that was asked for, and tells these without finding them again. Of what it has
/// kept it asks no more than the questions of the level.
///
/// It is seen as what the other one stands for.
#[derive(Drop)]
pub struct Recalling<E: CheapestEvaluator + Drop> {
    evaluator: E,
    system: Arc<System>,
    told: Told,
    // The place after the last state that was recalled. Pairs are asked for in about the order of
    // the list, so a search begins there.
    next: usize,
}

impl<E: CheapestEvaluator + Drop> Model for Recalling<E> {
    ghost use Rattle.std.specs.Prelude.{◌≡◌};
    ghost use Rattle.std.specs.Arc.{arc_value};
    ghost use Rattle.mcs_states.specs.Codes.{coded_evaluator};
    ghost use Rattle.mcs_states.specs.Evaluators.{EvaluatorState};
    ghost use Rattle.mcs_recall.specs.Told.{IsToldOf};

    ghost Value = { EvaluatorState };

    ghost coded = { coded_evaluator };

    ghost view = { λ r. E.stands r.evaluator };

    ghost invariant = { λ r. (arc_value r.system ≡ (E.stands r.evaluator).system)
        × IsToldOf (E.stands r.evaluator).system r.told };
}

impl<E: CheapestEvaluator + Drop> Recalling<E> {
    /// The evaluator of this system, with what was told of the system before.
    pub fn new(evaluator: E, system: Arc<System>, told: Told) -> Recalling<E>
        requires same { arc_value system ≡ (E.stands evaluator).system }
        requires told { IsToldOf (E.stands evaluator).system told }
        ensures { result ≡ E.stands evaluator }
    {
        Recalling {
            evaluator,
            system,
            told,
            next: 0,
        }
    }

    /// The evaluator, back, and what was told of its system, now or before.
    pub fn into_parts(self) -> (E, Told)
        ensures stands { E.stands result.0 ≡ self }
        ensures told { IsToldOf self.system result.1 }
    {
        let Recalling {
            evaluator,
            told,
            ..
        } = self;
        (evaluator, told)
    }
}

impl<E: CheapestEvaluator + Drop> Evaluator for Recalling<E> {
    ghost stands = { λ r. r };

    fn repairs(&mut self, alloc: Global, level: u32) -> Result<Vec<Marks>, Halt> {
        let pairs = self.evaluator.repairs(alloc, level)?;
        self.told.repairs = kept_repairs(alloc, level, &pairs);
        Ok(pairs)
    }

    fn states(&mut self, alloc: Global, pair: Pair) -> Result<Vec<Vars>, Halt> {
        self.evaluator.states(alloc, pair)
    }

    fn first_state(&mut self, alloc: Global, pair: Pair) -> Result<Option<Vars>, Halt> {
        if let Some(place) = place_from(&self.told.shown, pair, self.next) {
            self.evaluator.reach(alloc, pair.marks().count())?;
            self.next = place + 1;
            return Ok(Some(self.told.shown[place].state));
        }
        let first = self.evaluator.first_state(alloc, pair)?;
        if let Some(state) = first {
            keep(&mut self.told.shown, Shown { pair, state });
            self.next = self.told.shown.len();
        }
        Ok(first)
    }

    fn asked(&self) -> u64 {
        self.evaluator.asked()
    }

    fn halted(&self) -> bool {
        self.evaluator.halted()
    }
}

impl<E: CheapestEvaluator + Drop> CheapestEvaluator for Recalling<E> {
    fn reach(&mut self, alloc: Global, level: u32) -> Result<(), Halt> {
        self.evaluator.reach(alloc, level)
    }

    fn cheapest(&mut self, alloc: Global, level: u32) -> Result<Settling, Halt> {
        if let Some(pairs) = cheapest_told(alloc, &self.system, &self.told.repairs) {
            self.evaluator.reach(alloc, level)?;
            return Ok(Settling::Settled(pairs));
        }
        self.evaluator.cheapest(alloc, level)
    }
}
