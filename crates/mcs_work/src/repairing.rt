//! The diagnoses and explanations of a system: found level by level, and printed.

ghost use Rattle.std.specs.Prelude.{◌≡◌, ℕ, List, [], length, IfOk};
ghost use Rattle.std.specs.Arc.{arc_value};
ghost use Rattle.mcs_sets.specs.Orders.{PairBefore};
ghost use Rattle.mcs_base.specs.Listings.{IsListing};
ghost use Rattle.mcs_base.specs.Minimal.{IsMinimal};
ghost use Rattle.mcs_base.specs.Transversals.{IsTransversalOf};
ghost use Rattle.mcs_states.specs.Calls.{CanBegin};
ghost use Rattle.mcs_diagnosis.specs.Diagnoses.{pairs_of};
ghost use Rattle.mcs_report.specs.Solutions.{AreEquilibria};
ghost use Rattle.mcs_work.specs.Course.{IsUnderWay, HasBegun, HasGoneOn, HasEnded};
ghost use Rattle.mcs_work.specs.Extents.{task_of, front_part};
ghost use Rattle.mcs_work.specs.Work.{Proceeds, Works};

use crate::extent::Extent;
use crate::printing::{print_diagnoses_part, print_rest, print_states_part};
use crate::states::find_states;
use crate::task::WorkStop;
use mcs_base::{Marks, Memory};
use mcs_diagnosis::{Diagnosis, Level, Levels};
use mcs_ports::Sink;
use mcs_states::Evaluator;
use mcs_system::System;
use mcs_transversal::minimal_transversals;
use std::alloc::Global;
use std::sync::Arc;

/// Prints the whole listing of the system, or its counts, as `extent` has it.
pub(crate) fn solve<E: Evaluator, K: Sink>(
    alloc: Global,
    extent: Extent,
    evaluator: E,
    system: Arc<System>,
    sink: &mut K,
) -> (Result<(), WorkStop>, E)
    requires { CanBegin (arc_value system) (E.stands evaluator) }
    ensures { Works (task_of extent) [] (E.stands evaluator) (E.stands result.1)
        (K.device sink.old) (K.device sink.new) result.0 }
{
    let mut evaluator = evaluator;
    match print_equilibria(alloc, extent, &mut evaluator, &system, sink) {
        Ok(states) => repair(alloc, extent, evaluator, system, states, sink),
        Err(stop) => (Err(stop), evaluator),
    }
}

/// Finds the equilibria, and prints the part up to the verdict. Returns how many equilibria there
/// are.
fn print_equilibria<E: Evaluator, K: Sink>(
    alloc: Global,
    extent: Extent,
    evaluator: &mut E,
    system: &System,
    sink: &mut K,
) -> Result<u64, WorkStop>
    requires { CanBegin system.now (E.stands evaluator.old) }
    ensures part { Proceeds (task_of extent) [] (E.stands evaluator.old) (E.stands evaluator.new)
        (K.device sink.old) (K.device sink.new) result }
    ensures begun { IfOk result (HasBegun extent system.now (E.stands evaluator.new)
        (K.device sink.old).written (K.device sink.new).written) }
{
    let states = find_states(alloc, evaluator, extent.task(), system, sink)?;
    print_states_part(alloc, extent, system, &states, sink)?;
    Ok(states.len() as u64)
}

/// Prints what comes after the verdict. `states` is the number of equilibria.
fn repair<E: Evaluator, K: Sink>(
    alloc: Global,
    extent: Extent,
    evaluator: E,
    system: Arc<System>,
    states: u64,
    sink: &mut K,
) -> (Result<(), WorkStop>, E)
    requires { IsUnderWay (arc_value system) (E.stands evaluator) 0 [] }
    ensures { (σs : List ℕ) → AreEquilibria (arc_value system) σs → length σs ≡ states
        → Works (task_of extent) (front_part extent (arc_value system) σs []) (E.stands evaluator)
        (E.stands result.1) (K.device sink.old) (K.device sink.new) result.0 }
{
    let own = match system.clone() {
        Ok(own) => own,
        Err(_) => return (Err(WorkStop::Memory), evaluator),
    };
    let mut levels = Levels::new(evaluator, own);
    let result = print_repairs(alloc, extent, &mut levels, &system, states, sink);
    (result, levels.into_evaluator())
}

/// Finds the diagnoses of all levels and the explanations, and prints their parts and the end line.
fn print_repairs<E: Evaluator, K: Sink>(
    alloc: Global,
    extent: Extent,
    levels: &mut Levels<E>,
    system: &System,
    states: u64,
    sink: &mut K,
) -> Result<(), WorkStop>
    requires { IsUnderWay system.now (E.stands levels.old.evaluator) levels.old.level [] }
    ensures { (σs : List ℕ) → AreEquilibria system.now σs → length σs ≡ states
        → Works (task_of extent) (front_part extent system.now σs [])
        (E.stands levels.old.evaluator) (E.stands levels.new.evaluator) (K.device sink.old)
        (K.device sink.new) result }
{
    let found = print_levels(alloc, extent, levels, system, sink)?;
    let asked = levels.evaluator().asked();
    let (pairs, explanations) = explain(alloc, &found)?;
    print_rest(
        alloc,
        extent,
        system,
        states,
        &pairs,
        &explanations,
        asked,
        sink,
    )?;
    Ok(())
}

/// Finds the diagnoses of all levels, prints their parts, and returns them.
fn print_levels<E: Evaluator, K: Sink>(
    alloc: Global,
    extent: Extent,
    levels: &mut Levels<E>,
    system: &System,
    sink: &mut K,
) -> Result<Vec<Diagnosis>, WorkStop>
    requires { IsUnderWay system.now (E.stands levels.old.evaluator) levels.old.level [] }
    ensures part { (σs : List ℕ) → AreEquilibria system.now σs
        → Proceeds (task_of extent) (front_part extent system.now σs [])
        (E.stands levels.old.evaluator) (E.stands levels.new.evaluator) (K.device sink.old)
        (K.device sink.new) result }
    ensures ended { IfOk result (λ found. HasEnded extent system.now
        (E.stands levels.new.evaluator) levels.new.level (K.device sink.old).written
        (K.device sink.new).written found.items) }
{
    let mut found = Vec::new(alloc);
    loop {
        if !print_level(alloc, extent, levels, system, &mut found, sink)? {
            return Ok(found);
        }
    }
}

/// Finds the diagnoses of the next level, prints their part, and appends them to `found`, which has
/// those of the earlier levels. Returns whether there is such a level.
fn print_level<E: Evaluator, K: Sink>(
    alloc: Global,
    extent: Extent,
    levels: &mut Levels<E>,
    system: &System,
    found: &mut Vec<Diagnosis>,
    sink: &mut K,
) -> Result<bool, WorkStop>
    requires { IsUnderWay system.now (E.stands levels.old.evaluator) levels.old.level
        found.old.items }
    ensures part { (σs : List ℕ) → AreEquilibria system.now σs
        → Proceeds (task_of extent) (front_part extent system.now σs found.old.items)
        (E.stands levels.old.evaluator) (E.stands levels.new.evaluator) (K.device sink.old)
        (K.device sink.new) result }
    ensures gone { IfOk result (HasGoneOn extent system.now (E.stands levels.new.evaluator)
        levels.old.level levels.new.level found.old.items found.new.items
        (K.device sink.old).written (K.device sink.new).written) }
{
    match levels.next(alloc)? {
        Level::Over => Ok(false),
        Level::Found(fresh) => {
            print_diagnoses_part(alloc, extent, system, found.len() as u64 + 1, &fresh, sink)?;
            found.extend_from_slice(&fresh)?;
            Ok(true)
        }
    }
}

/// The pairs of the diagnoses, and the minimal sets of marks that meet each of these pairs.
fn explain(alloc: Global, found: &[Diagnosis]) -> Result<(Vec<Marks>, Vec<Marks>), Memory>
    ensures pairs { IfOk result (λ r. r.0.items ≡ pairs_of found.now) }
    ensures listed { IfOk result (λ r. IsListing (IsMinimal (IsTransversalOf (pairs_of found.now)))
        PairBefore r.1.items) }
{
    let pairs: Vec<Marks> = found
        .iter()
        .map(|diagnosis| diagnosis.pair.marks())
        .collect(alloc)?;
    let explanations = minimal_transversals(alloc, &pairs)?;
    Ok((pairs, explanations))
}
