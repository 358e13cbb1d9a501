//! The truth of formulas under an assignment to their atoms.

ghost use Rattle.std.specs.Prelude.{◌≡◌, ◌≤◌, length, map};
ghost use Rattle.mcs_system.specs.Logic.{holds, holds_all, true_names};
ghost use Rattle.mcs_system.specs.Seen.{formula_of};
ghost use Rattle.mcs_system.specs.Logic.{is_in};

use crate::formula::Formula;
use crate::name::Name;
use mcs_base::Vars;

/// Whether the name is at a place, among `atoms`, that is in `values`.
fn is_true_at(atoms: &[Name], values: Vars, name: &Name) -> bool
    requires { length atoms.now ≤ 64 }
    ensures { result ≡ is_in name.now (true_names 0 atoms.now values) }
{
    for (k, atom) in atoms.iter().enumerate() {
        if values.has(k as u32) && name.is(atom) {
            return true;
        }
    }
    false
}

/// Whether the formula holds under the assignment in which an atom is true exactly if its place is
/// in `values`.
pub fn holds_at(atoms: &[Name], values: Vars, f: &Formula) -> bool
    requires { length atoms.now ≤ 64 }
    ensures { result ≡ holds (true_names 0 atoms.now values) (formula_of f.now) }
{
    match f {
        Formula::True => true,
        Formula::False => false,
        Formula::Atom(name) => is_true_at(atoms, values, name),
        Formula::Not(g) => !holds_at(atoms, values, g),
        Formula::And(g, h) => holds_at(atoms, values, g) && holds_at(atoms, values, h),
        Formula::Or(g, h) => holds_at(atoms, values, g) || holds_at(atoms, values, h),
        Formula::Implies(g, h) => !holds_at(atoms, values, g) || holds_at(atoms, values, h),
        Formula::Iff(g, h) => holds_at(atoms, values, g) == holds_at(atoms, values, h),
    }
}

/// Whether all the formulas hold under the assignment in which an atom is true exactly if its place
/// is in `values`.
pub fn all_hold_at(atoms: &[Name], values: Vars, formulas: &[Formula]) -> bool
    requires { length atoms.now ≤ 64 }
    ensures { result ≡ holds_all (true_names 0 atoms.now values) (map formula_of formulas.now) }
{
    formulas.iter().all(|f| holds_at(atoms, values, f))
}
