//! The search for a grounded belief state among those with one projection.

ghost use Rattle.std.specs.Prelude.{IfOk, IfSome, IfNone};
ghost use Rattle.mcs_grounded.specs.Parts.{AreAllFound, IsDerivation, cones_of};
ghost use Rattle.mcs_grounded.specs.Searches.{CanSearch, IsAnswer, IsOpen, NoneIsOpen, AreBoundsOf};

use crate::basis::Derivation;
use crate::bounds::Bounds;
use crate::derivation::derive;
use crate::found::Solver;
use crate::views::cone_views;
use mcs_base::{Active, Memory};
use std::alloc::Global;

/// The first context into which a rule is missing, of those that apply in the state, and whose
/// atoms are not all known.
fn next_open(derivation: &Derivation<'_>, bounds: &Bounds, rules: Active) -> Option<u32>
    requires { AreBoundsOf derivation.now.system.now bounds.now }
    ensures some { IfSome result (IsOpen derivation.now.system.now derivation.now.state bounds.now
        rules) }
    ensures none { IfNone result (NoneIsOpen derivation.now.system.now derivation.now.state
        bounds.now rules) }
{
    for context in 0..derivation.system.contexts().len() as u32 {
        let place = context as usize;
        let own = derivation.goal.common(derivation.system.rules_of(context));
        if !own.within(rules) && bounds.certain[place] != bounds.possible[place] {
            return Some(context);
        }
    }
    None
}

/// Whether a belief state within the bounds is grounded. If all rules that apply in the state can be
/// derived with programs reduced by what is possible, each one is. If they can't be derived with
/// programs reduced by what is certain, none is. Where the bounds do not settle it, the answer sets
/// of one more program are told apart, each by the atoms of its cone.
pub(crate) fn search(
    alloc: Global,
    derivation: &Derivation<'_>,
    found: &mut [Option<Solver>],
    bounds: &Bounds,
) -> Result<bool, Memory>
    requires derivation { IsDerivation derivation.now found.old }
    requires bounds { CanSearch derivation.now bounds.now }
    ensures found { AreAllFound derivation.now.system.now found.new }
    ensures answer { IfOk result (IsAnswer derivation.now.system.now derivation.now.state
        (cones_of derivation.now.cones.now) bounds.now) }
{
    let surely = derive(alloc, derivation, found, &bounds.possible)?;
    if surely == derivation.goal {
        return Ok(true);
    }
    let Some(context) = next_open(derivation, bounds, surely) else {
        return Ok(false);
    };
    let perhaps = derive(alloc, derivation, found, &bounds.certain)?;
    if perhaps != derivation.goal {
        return Ok(false);
    }
    let views = cone_views(alloc, derivation, context)?;
    for view in &views {
        let told = bounds.told(context as usize, *view);
        if search(alloc, derivation, found, &told)? {
            return Ok(true);
        }
    }
    Ok(false)
}
