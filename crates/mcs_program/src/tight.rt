//! Whether a program is tight: no positive body leads from an atom on without end.

ghost use Rattle.std.specs.Prelude.{◌≡◌, true, IsTrue};
ghost use Rattle.std.specs.List.{AllByRecursion};
ghost use Rattle.mcs_program.specs.Asked.{IsTight};
ghost use Rattle.mcs_program.specs.Placing.{places_within, do_meet};

use crate::placed::PlacedProgram;
use crate::placing::{PlacedRule, lies_within};
use crate::view::all_places;
use mcs_base::Vars;

/// The atoms, among those at the places, that are in no head of a rule whose positive body is not
/// within the set.
fn based_on(rules: &[PlacedRule], set: Vars, places: Vars) -> Vars
    ensures { AllByRecursion (λ (r : PlacedRule). do_meet r.head result ≡ true
        → places_within r.pos set ≡ true) rules.now }
{
    let mut based = places;
    for rule in rules {
        if !lies_within(rule.pos, set) {
            based = based.minus(rule.head);
        }
    }
    based
}

/// Whether no positive body of the rules leads from one of the atoms on without end. Starting from
/// the empty set, the atoms whose positive bodies lie within the set are added again and again,
/// until all atoms are in it or nothing changes.
pub(crate) fn is_tight(placed: &PlacedProgram<'_>) -> bool
    ensures { IsTrue result → IsTight placed.now.program.now }
{
    let atoms = placed.program.atoms;
    let all = all_places(atoms.len());
    let mut set = Vars::empty();
    for _ in 0..atoms.len() {
        let more = based_on(&placed.placing.rules, set, all);
        if more == set {
            return set == all;
        }
        set = more;
    }
    set == all
}
