//! Formulas as texts.

ghost use Rattle.std.specs.Prelude.{◌≡◌, ◌++◌, ◌∷◌, OnOk, length, map, IfOk};
ghost use Rattle.mcs_system.specs.Seen.{formula_of};
ghost use Rattle.mcs_session.specs.KeyTexts.{formula_text, formulas_text};
ghost use Rattle.mcs_session.specs.Tables.{kind_number};

use mcs_base::Memory;
use mcs_system::{Formula, Name};
use std::alloc::Global;

/// Appends the length of the name and its bytes.
fn push_name(text: &mut Vec<u32>, name: &Name) -> Result<(), Memory>
    ensures { OnOk result (text.new.items ≡ text.old.items ++ length name.now ∷ name.now) }
{
    let bytes = name.bytes();
    text.push(bytes.len() as u32)?;
    for byte in bytes {
        text.push(u32::from(*byte))?;
    }
    Ok(())
}

/// The number with which the text of the formula begins.
fn kind_number(formula: &Formula) -> u32
    ensures { result ≡ kind_number (formula_of formula.now) }
{
    match formula {
        Formula::True => 0,
        Formula::False => 1,
        Formula::Atom(_) => 2,
        Formula::Not(_) => 3,
        Formula::And(..) => 4,
        Formula::Or(..) => 5,
        Formula::Implies(..) => 6,
        Formula::Iff(..) => 7,
    }
}

/// Appends the text of the formula.
fn push_formula(text: &mut Vec<u32>, formula: &Formula) -> Result<(), Memory>
    ensures { OnOk result (text.new.items
        ≡ text.old.items ++ formula_text (formula_of formula.now)) }
{
    text.push(kind_number(formula))?;
    match formula {
        Formula::True | Formula::False => Ok(()),
        Formula::Atom(name) => push_name(text, name),
        Formula::Not(inner) => push_formula(text, inner),
        Formula::And(first, second)
        | Formula::Or(first, second)
        | Formula::Implies(first, second)
        | Formula::Iff(first, second) => {
            push_formula(text, first)?;
            push_formula(text, second)
        }
    }
}

/// The text of the formula.
pub(crate) fn formula_text(alloc: Global, formula: &Formula) -> Result<Vec<u32>, Memory>
    ensures { IfOk result (λ text. text.items ≡ formula_text (formula_of formula.now)) }
{
    let mut text = Vec::new(alloc);
    push_formula(&mut text, formula)?;
    Ok(text)
}

/// The text of the list of formulas.
pub(crate) fn formulas_text(alloc: Global, formulas: &[&Formula]) -> Result<Vec<u32>, Memory>
    ensures { IfOk result (λ text. text.items
        ≡ formulas_text (map (λ f. formula_of f.now) formulas.now)) }
{
    let mut text = Vec::new(alloc);
    for formula in formulas {
        text.push(1)?;
        push_formula(&mut text, formula)?;
    }
    text.push(0)?;
    Ok(text)
}
