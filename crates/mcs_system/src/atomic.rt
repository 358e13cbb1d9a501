//! Formulas that are atoms.

ghost use Rattle.std.specs.Prelude.{◌≡◌, map, IsTrue, IfOk};
ghost use Rattle.std.specs.List.{AllByRecursion};
ghost use Rattle.mcs_system.specs.Faults.{is_atom};
ghost use Rattle.mcs_system.specs.Plain.{Atom};
ghost use Rattle.mcs_system.specs.Seen.{formula_of};

use crate::formula::Formula;
use crate::name::Name;
use mcs_base::Memory;
use std::alloc::Global;

/// The name of a formula that is an atom.
fn name_of(formula: &Formula) -> &Name
    requires { IsTrue (is_atom (formula_of formula.now)) }
    ensures { Atom result.now ≡ formula_of formula.now }
{
    match formula {
        Formula::Atom(name) => name,
        _ => unreachable!(),
    }
}

/// The names of formulas that are atoms, in their order.
pub fn names_of<'f>(alloc: Global, formulas: &[&'f Formula]) -> Result<Vec<&'f Name>, Memory>
    requires { AllByRecursion (λ f. IsTrue (is_atom (formula_of f.now))) formulas.now }
    ensures { IfOk result (λ names. map Atom (map (λ n. n.now) names.items)
        ≡ map (λ f. formula_of f.now) formulas.now) }
{
    let mut names = Vec::new(alloc);
    for formula in formulas {
        names.push(name_of(formula))?;
    }
    Ok(names)
}
