//! The denials that a formula begins with. They are gone through in loops, so many of them take no
//! more stack than few.

ghost use Rattle.std.specs.Prelude.{◌≡◌, ◌≤◌, IfOk};
ghost use Rattle.mcs_system.specs.Denials.{denied, with_denials};
ghost use Rattle.mcs_system.specs.Seen.{formula_of};
ghost use Rattle.mcs_system.specs.declared.formula.Formula.{size-Formula};

use crate::formula::Formula;
use mcs_base::Memory;
use std::alloc::Global;

/// What the denials deny that the formula begins with: the formula itself, where it begins with
/// none.
pub fn denied(formula: &Formula) -> &Formula
    ensures denied { formula_of result.now ≡ denied (formula_of formula.now) }
    ensures no_deeper { size-Formula result.now ≤ size-Formula formula.now }
{
    let mut rest = formula;
    while let Formula::Not(inner) = rest {
        rest = inner;
    }
    rest
}

/// The formula `core` with as many denials before it as the other one begins with.
pub(crate) fn with_denials(
    alloc: Global,
    formula: &Formula,
    core: Formula,
) -> Result<Formula, Memory>
    ensures { IfOk result (λ f. formula_of f
        ≡ with_denials (formula_of formula.now) (formula_of core)) }
{
    let mut rest = formula;
    let mut whole = core;
    while let Formula::Not(inner) = rest {
        whole = Formula::Not(Box::new(alloc, whole)?);
        rest = inner;
    }
    Ok(whole)
}
