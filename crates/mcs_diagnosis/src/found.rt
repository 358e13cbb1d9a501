//! The diagnoses of one level.

ghost use Rattle.std.specs.Prelude.{◌≡◌, false, IfOk};
ghost use Rattle.mcs_base.specs.Listings.{IsAmong, IsAscending, IsListing};
ghost use Rattle.mcs_states.specs.Calls.{CanEvaluate, Evaluates, AsksEvaluator};
ghost use Rattle.mcs_sets.specs.Orders.{PairBefore};
ghost use Rattle.mcs_sets.specs.Sets.{size};
ghost use Rattle.mcs_system.specs.Repairs.{IsDiagnosis};
ghost use Rattle.mcs_diagnosis.specs.Diagnoses.{ArePairsOfSize, AreShownDiagnoses};
ghost use Rattle.mcs_diagnosis.specs.Diagnoses.{ShowsFirstState, active_in};

use crate::diagnosis::Diagnosis;
use mcs_base::{Active, Marks, Memory, Pair, Vars};
use mcs_equilibria::least_state;
use mcs_states::{Evaluator, Halt};
use mcs_system::System;
use std::alloc::Global;

// The rules that are active in the state: those that apply, without the removed and with the forced
// ones.
fn active(system: &System, pair: Pair, state: Vars) -> Active
    ensures { result ≡ active_in system.now pair state }
{
    system
        .applicable_rules(state)
        .minus(pair.removed())
        .union(pair.forced())
}

/// The diagnosis with its first state and its active rules, found by a call of the level of its
/// marks.
pub fn show<E: Evaluator>(
    alloc: Global,
    evaluator: &mut E,
    system: &System,
    pair: Pair,
) -> Result<Diagnosis, Halt>
    requires can { CanEvaluate system.now (E.stands evaluator.old) }
    requires diagnosis { IsDiagnosis system.now pair }
    ensures pair { IfOk result (λ shown. shown.pair ≡ pair) }
    ensures shown { IfOk result (ShowsFirstState system.now) }
    ensures call { Evaluates (size pair) (E.stands evaluator.old) (E.stands evaluator.new) result }
{
    let state = least_state(alloc, evaluator, pair)?.unwrap();
    Ok(Diagnosis {
        pair,
        state,
        active: active(system, pair, state),
    })
}

// Those of the sets of marks that have exactly so many.
fn of_size(alloc: Global, pairs: &[Marks], level: u32) -> Result<Vec<Marks>, Memory>
    requires { IsAscending PairBefore pairs.now }
    ensures { IfOk result (λ exact. IsListing (λ p. IsAmong p pairs.now × (size p ≡ level))
        PairBefore exact.items) }
{
    let mut exact = Vec::new(alloc);
    for marks in pairs {
        if marks.count() == level {
            exact.push(*marks)?;
        }
    }
    Ok(exact)
}

/// The pairs of the minimal diagnoses with exactly `level` marks, in the order of pairs.
pub fn pairs_at<E: Evaluator>(
    alloc: Global,
    evaluator: &mut E,
    level: u32,
) -> Result<Vec<Marks>, Halt>
    requires { (E.stands evaluator.old).halted ≡ false }
    ensures found { IfOk result (λ pairs. ArePairsOfSize
        (E.stands evaluator.old).system level pairs.items) }
    ensures call { AsksEvaluator level (E.stands evaluator.old) (E.stands evaluator.new) result }
{
    let pairs = evaluator.repairs(alloc, level)?;
    let exact = of_size(alloc, &pairs, level)?;
    Ok(exact)
}

/// The minimal diagnoses with exactly `level` marks, in the order of pairs, each with its first
/// state and its active rules.
pub fn diagnoses_of<E: Evaluator>(
    alloc: Global,
    evaluator: &mut E,
    system: &System,
    level: u32,
) -> Result<Vec<Diagnosis>, Halt>
    requires { CanEvaluate system.now (E.stands evaluator.old) }
    ensures found { IfOk result (λ found. AreShownDiagnoses system.now level found.items) }
    ensures call { AsksEvaluator level (E.stands evaluator.old) (E.stands evaluator.new) result }
{
    let pairs = pairs_at(alloc, evaluator, level)?;
    let mut found = Vec::new(alloc);
    for marks in &pairs {
        let shown = show(alloc, evaluator, system, Pair::new(*marks))?;
        found.push(shown)?;
    }
    Ok(found)
}
