//! Formulas of propositional logic.

ghost use Rattle.std.specs.Prelude.{◌≡◌, IfOk};
ghost use Rattle.std.specs.Cmp.{on_per};
ghost use Rattle.std.specs.Ordering.{on};
ghost use Rattle.mcs_system.specs.Equality.{same_formula-laws};
ghost use Rattle.mcs_system.specs.Plain as plain;
ghost use Rattle.mcs_system.specs.Seen.{formula_of};
ghost use Rattle.mcs_system.specs.Systems.{same_formula};

use crate::copied::Copied;
use crate::denials::{denied, with_denials};
use crate::name::Name;
use crate::same::same_formula;
use mcs_base::Memory;
use std::alloc::Global;

/// A propositional formula. Its atoms are names.
pub enum Formula {
    True,
    False,
    Atom(Name),
    Not(Box<Formula>),
    And(Box<Formula>, Box<Formula>),
    Or(Box<Formula>, Box<Formula>),
    Implies(Box<Formula>, Box<Formula>),
    Iff(Box<Formula>, Box<Formula>),
}

impl Drop for Formula {
    fn drop(self) {
        match self {
            Formula::True => {}
            Formula::False => {}
            Formula::Atom(_) => {}
            Formula::Not(_) => {}
            Formula::And(_, _) => {}
            Formula::Or(_, _) => {}
            Formula::Implies(_, _) => {}
            Formula::Iff(_, _) => {}
        }
    }
}

impl PartialEq for Formula {
    ghost eq = { on formula_of same_formula };

    ghost laws = { on_per formula_of same_formula-laws };

    fn eq(&self, other: &Formula) -> bool {
        same_formula(self, other)
    }
}

impl Formula {
    /// An equal formula.
    #[cycle(copy)]
    pub fn copy(&self, alloc: Global) -> Result<Formula, Memory>
        ensures { IfOk result (λ f. formula_of f ≡ formula_of self.now) }
    {
        match self {
            Formula::True => Ok(Formula::True),
            Formula::False => Ok(Formula::False),
            Formula::Atom(name) => Ok(Formula::Atom(name.copy(alloc)?)),
            Formula::Not(g) => {
                let core = denied(g).copy(alloc)?;
                with_denials(alloc, self, core)
            }
            Formula::And(g, h) => Ok(Formula::And(copy_in_box(alloc, g)?, copy_in_box(alloc, h)?)),
            Formula::Or(g, h) => Ok(Formula::Or(copy_in_box(alloc, g)?, copy_in_box(alloc, h)?)),
            Formula::Implies(g, h) => Ok(Formula::Implies(
                copy_in_box(alloc, g)?,
                copy_in_box(alloc, h)?,
            )),
            Formula::Iff(g, h) => Ok(Formula::Iff(copy_in_box(alloc, g)?, copy_in_box(alloc, h)?)),
        }
    }
}

/// An equal formula, in a box.
#[cycle(copy)]
fn copy_in_box(alloc: Global, formula: &Formula) -> Result<Box<Formula>, Memory>
    ensures { IfOk result (λ f. formula_of f.value ≡ formula_of formula.now) }
{
    let copy = formula.copy(alloc)?;
    Ok(Box::new(alloc, copy)?)
}

impl Copied for Formula {
    ghost Seen = { plain.Formula };

    ghost seen = { formula_of };

    fn copied(&self, alloc: Global) -> Result<Formula, Memory> {
        self.copy(alloc)
    }
}
