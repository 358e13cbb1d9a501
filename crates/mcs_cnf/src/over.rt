//! Whether formulas are over atoms, as the calls that make clauses of them require.

ghost use Rattle.std.specs.Prelude.{◌≡◌, ◌↔◌, false, map, IsTrue};
ghost use Rattle.mcs_system.specs.Faults.{has_twins};
ghost use Rattle.mcs_system.specs.Logic.{is_in};
ghost use Rattle.mcs_system.specs.Seen.{formula_of};
ghost use Rattle.mcs_cnf.specs.ClauseLists.{IsOver, AreOver};

use mcs_system::{Formula, Name};

/// Whether the name is one of the atoms.
fn is_atom(atoms: &[Name], name: &Name) -> bool
    ensures { result ≡ is_in name.now atoms.now }
{
    atoms.iter().any(|atom| name.is(atom))
}

/// Whether each atom of the formula is one of these.
pub fn is_over(atoms: &[Name], formula: &Formula) -> bool
    ensures { IsTrue result ↔ IsOver atoms.now (formula_of formula.now) }
{
    match formula {
        Formula::True | Formula::False => true,
        Formula::Atom(name) => is_atom(atoms, name),
        Formula::Not(g) => is_over(atoms, g),
        Formula::And(g, h) | Formula::Or(g, h) | Formula::Implies(g, h) | Formula::Iff(g, h) => {
            is_over(atoms, g) && is_over(atoms, h)
        }
    }
}

/// Whether each atom of the formulas is one of these.
pub fn are_over(atoms: &[Name], formulas: &[Formula]) -> bool
    ensures { IsTrue result ↔ AreOver atoms.now (map formula_of formulas.now) }
{
    for formula in formulas {
        if !is_over(atoms, formula) {
            return false;
        }
    }
    true
}

/// Whether no two of the atoms have the same name. The time is quadratic in their number.
pub fn are_different(atoms: &[Name]) -> bool
    ensures { IsTrue result ↔ (has_twins atoms.now ≡ false) }
{
    for (index, atom) in atoms.iter().enumerate() {
        if is_atom(&atoms[index + 1..], atom) {
            return false;
        }
    }
    true
}
