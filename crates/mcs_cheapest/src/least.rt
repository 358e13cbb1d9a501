//! The cheapest diagnoses of a system, by an evaluator that tells them alone.

ghost use Rattle.std.specs.Prelude.{◌≡◌, ◌+◌, false, max};
ghost use Rattle.mcs_states.specs.Calls.{CanBegin};
ghost use Rattle.mcs_states.specs.Evaluators.{EvaluatorState};
ghost use Rattle.mcs_costs.specs.Costs.{AreCheapest, IsStopLevel, IsUpToStop};
ghost use Rattle.mcs_cheapest.specs.Found.{HasSearched, IsLeastCost, Searches};
ghost use Rattle.mcs_cheapest.specs.Least.{HasReached, HasTold, IsAsking, IsMostMarks, IsTold};

use crate::cheapest::Cheapest;
use crate::showing::show_each;
use mcs_base::Marks;
use mcs_costs::{CheapestEvaluator, Settling, cost, least_weight};
use mcs_diagnosis::Diagnosis;
use mcs_states::Halt;
use mcs_system::System;
use std::alloc::Global;

/// The cheapest diagnoses of the system, as `list_cheapest` finds them, by an evaluator that tells
/// them alone: the other minimal ones, of which there may be many, are not made. The evaluator has
/// to be one of this system that has done no level yet. The levels that are taken are the same, and
/// each halt has the same causes.
///
/// At each level the cheapest of the diagnoses that are known are shown, since contexts have fewer
/// answers then than at the level that settles them.
pub fn list_least<E: CheapestEvaluator>(
    alloc: Global,
    evaluator: &mut E,
    system: &System,
) -> Result<Cheapest, Halt>
    requires { CanBegin system.now (E.stands evaluator.old) }
    ensures { Searches (HasSearched (E.stands evaluator.old) (E.stands evaluator.new))
        (E.stands evaluator.old) (E.stands evaluator.new) result }
{
    let Told {
        pairs,
        level,
        shown,
    } = least_pairs(alloc, evaluator, system)?;
    let found = show_each(alloc, evaluator, system, &pairs, &shown)?;
    take_rest(alloc, evaluator, level, stop_level(system, &pairs))?;
    Ok(Cheapest {
        found,
        cost: cost_of_each(system, &pairs),
        need: evaluator.asked(),
    })
}

/// The cheapest diagnoses, a level up to which all were taken, and diagnoses that were shown before.
#[derive(Drop)]
struct Told {
    pairs: Vec<Marks>,
    level: u32,
    shown: Vec<Diagnosis>,
}

/// The cheapest diagnoses, once so many levels were taken that none of them has more marks. At this
/// level contexts have fewer rows than at the stop level, so that the diagnoses are shown sooner.
fn least_pairs<E: CheapestEvaluator>(
    alloc: Global,
    evaluator: &mut E,
    system: &System,
) -> Result<Told, Halt>
    requires { CanBegin system.now (E.stands evaluator.old) }
    ensures { Searches (IsTold HasReached (E.stands evaluator.old) (E.stands evaluator.new))
        (E.stands evaluator.old) (E.stands evaluator.new) result }
{
    let Told {
        pairs,
        level,
        shown,
    } = first_told(alloc, evaluator, system)?;
    let most = most_marks(&pairs);
    take_rest(alloc, evaluator, level, most)?;
    Ok(Told {
        pairs,
        level: level.max(most),
        shown,
    })
}

/// How many marks one of the pairs has at most.
fn most_marks(pairs: &[Marks]) -> u32
    ensures { IsMostMarks pairs.now result }
{
    let mut most: u32 = 0;
    for marks in pairs {
        most = most.max(marks.count());
    }
    most
}

/// Takes the levels above one that was taken, up to the last one that is wanted.
fn take_rest<E: CheapestEvaluator>(
    alloc: Global,
    evaluator: &mut E,
    level: u32,
    last: u32,
) -> Result<(), Halt>
    requires { (E.stands evaluator.old).halted ≡ false }
    ensures { (first : EvaluatorState) → IsAsking first (E.stands evaluator.old) (level + 1)
        → IsUpToStop first.system last
        → Searches (λ _. IsAsking first (E.stands evaluator.new) (max level last + 1))
        first (E.stands evaluator.new) result }
{
    for before in level..last {
        evaluator.reach(alloc, before + 1)?;
    }
    Ok(())
}

/// Takes levels from 0 on, until the cheapest diagnoses are told, or the level is that of all
/// rules. Below the candidate no level settles them: such a level is asked and not searched. At each
/// level that is searched the cheapest diagnoses so far are shown.
fn first_told<E: CheapestEvaluator>(
    alloc: Global,
    evaluator: &mut E,
    system: &System,
) -> Result<Told, Halt>
    requires { CanBegin system.now (E.stands evaluator.old) }
    ensures { Searches (IsTold HasTold (E.stands evaluator.old) (E.stands evaluator.new))
        (E.stands evaluator.old) (E.stands evaluator.new) result }
{
    let last = system.bridges().len() as u32;
    let mut candidate = 0;
    let mut shown = Vec::new(alloc);
    for level in 0..last + 1 {
        if level < candidate {
            evaluator.reach(alloc, level)?;
            continue;
        }
        match evaluator.cheapest(alloc, level)? {
            Settling::Settled(pairs) => {
                return Ok(Told {
                    pairs,
                    level,
                    shown,
                });
            }
            Settling::NoneUpTo {
                level: bound,
                so_far,
            } => {
                candidate = bound.saturating_add(1);
                shown = show_each(alloc, evaluator, system, &so_far, &shown)?;
            }
        }
    }
    Ok(Told {
        pairs: Vec::new(alloc),
        level: last,
        shown,
    })
}

/// The stop level of the system, which has these cheapest diagnoses: their cost divided by the
/// least weight of a rule, or the number of rules, if this is less or there are no diagnoses.
fn stop_level(system: &System, pairs: &[Marks]) -> u32
    requires { AreCheapest system.now pairs.now }
    ensures { IsStopLevel system.now result }
{
    let last = system.bridges().len() as u32;
    let Some(cost) = cost_of_each(system, pairs) else {
        return last;
    };
    let Some(weight) = least_weight(system) else {
        return last;
    };
    (cost / weight).min(last as u64) as u32
}

/// What each of the cheapest diagnoses costs, or `None` if there are none.
fn cost_of_each(system: &System, pairs: &[Marks]) -> Option<u64>
    requires { AreCheapest system.now pairs.now }
    ensures { IsLeastCost system.now result }
{
    let first = *pairs.first()?;
    Some(cost(system, first))
}
