//! The cheapest diagnoses, once all questions of a level were asked.

ghost use Rattle.std.specs.Prelude.{◌≡◌, ◌≤◌, ℕ, IfOk, MatchOption, length};
ghost use Rattle.mcs_system.specs.Plain.{System};
ghost use Rattle.mcs_states.specs.Evaluators.{AreRepairs};
ghost use Rattle.mcs_costs.specs.Costs.{AreCheapest, SettlesNone};
ghost use Rattle.mcs_costs.specs.Settling.{AreDiagnosesUpTo, IsSettling};
ghost use Rattle.mcs_mesh.specs.Players.{known_to};
ghost use Rattle.mcs_mesh.specs.Rounds.{AreKnown};

use crate::found::few_of;
use crate::lasting::level_ahead;
use crate::nodes::NodeList;
use mcs_base::{Marks, Memory};
use mcs_costs::{Settling, least_cost, of_cost};
use mcs_elimination::{cheapest_among, cheapest_at, dear_marks};
use mcs_import::Plan;
use mcs_system::System;
use std::alloc::Global;

/// The cheapest diagnoses, in the order of pairs, if they are known from the questions of the
/// level; otherwise a level, this one or a higher one that the same rows settle too, of which none
/// settles a diagnosis. All questions of the level `done`, which is no less, were asked.
pub(crate) fn cheapest_of<N: NodeList>(
    alloc: Global,
    plan: &Plan,
    nodes: &N,
    done: u32,
    level: u32,
) -> Result<Settling, Memory>
    requires one_each { length (N.seen nodes.now) ≡ length plan.now.contexts }
    requires known { AreKnown plan.now done (known_to (N.seen nodes.now)) }
    requires within { level ≤ done }
    ensures { IfOk result (IsSettling plan.now level) }
{
    let ahead = level_ahead(plan.system(), level);
    let dear = dear_marks(alloc, plan.system(), ahead)?;
    let tables = nodes.minimal_tables(alloc, plan, done, &dear)?;
    let cheapest = cheapest_at(alloc, plan, tables, ahead)?;
    Ok(settling(cheapest, ahead, Vec::new(alloc)))
}

/// What the minimal diagnoses with at most `found` marks tell of the cheapest ones at the level,
/// which is no higher.
pub(crate) fn settling_among(
    alloc: Global,
    system: &System,
    pairs: &[Marks],
    found: u32,
    level: u32,
) -> Result<Settling, Memory>
    requires pairs { AreRepairs system.now found pairs.now }
    requires within { level ≤ found }
    ensures { IfOk result (IsSettling system.now level) }
{
    let cheapest = cheapest_among(alloc, system, pairs, found)?;
    let so_far = cheapest_so_far(alloc, system, pairs, level)?;
    Ok(settling(cheapest, found, so_far))
}

/// Of the minimal diagnoses with at most so many marks those that cost the least.
fn cheapest_so_far(
    alloc: Global,
    system: &System,
    pairs: &[Marks],
    level: u32,
) -> Result<Vec<Marks>, Memory>
    requires { (found : ℕ) × AreRepairs system.now found pairs.now }
    ensures { IfOk result (λ so_far. AreDiagnosesUpTo system.now level so_far.items) }
{
    let few = few_of(alloc, pairs, level)?;
    match least_cost(system, &few, None) {
        Some(least) => of_cost(alloc, system, &few, least),
        None => Ok(few),
    }
}

/// The cheapest diagnoses, or the level up to which none settles them, with diagnoses that are
/// known.
fn settling(cheapest: Option<Vec<Marks>>, level: u32, so_far: Vec<Marks>) -> Settling
    ensures { (m : System) (asked : ℕ) → asked ≤ level → AreDiagnosesUpTo m asked so_far.items
        → MatchOption cheapest (SettlesNone m level) (λ pairs. AreCheapest m pairs.items)
        → IsSettling m asked result }
{
    match cheapest {
        Some(pairs) => Settling::Settled(pairs),
        None => Settling::NoneUpTo { level, so_far },
    }
}
