//! What an assignment shows of sets of defaults.

ghost use Rattle.std.specs.Prelude.{◌≡◌, ◌≤◌, length};
ghost use Rattle.mcs_sets.specs.Sets.{such_that};
ghost use Rattle.mcs_system.specs.Logic.{true_names};
ghost use Rattle.mcs_system.specs.Seen.{default_of};
ghost use Rattle.mcs_grounding.specs.Asked.{theory_names, theory_defaults};
ghost use Rattle.mcs_default.specs.Assignments.{holds_part, holds_part_at, ShowsParts};

use crate::findings::Upper;
use mcs_base::Vars;
use mcs_grounding::Theory;
use mcs_system::{Default, Name, all_hold_at, holds_at};

/// A part of a default.
#[derive(Clone, Copy)]
pub(crate) enum Part {
    Prerequisite,
    Justifications,
    Consequent,
}

/// Whether this part of the default holds where exactly those of the atoms are true whose places
/// are in the set.
fn holds(default: &Default, part: Part, atoms: &[Name], values: Vars) -> bool
    requires { length atoms.now ≤ 64 }
    ensures { result ≡ holds_part (true_names 0 atoms.now values) part (default_of default.now) }
{
    match part {
        Part::Prerequisite => holds_at(atoms, values, &default.pre),
        Part::Justifications => all_hold_at(atoms, values, &default.justs),
        Part::Consequent => holds_at(atoms, values, &default.conclusion),
    }
}

/// The defaults of which this part holds there.
fn holding(theory: &Theory<'_>, part: Part, values: Vars) -> Vars
    ensures { result ≡ such_that (length theory.now.defaults.now)
        (holds_part_at (true_names 0 (theory_names theory.now) values) part
        (theory_defaults theory.now)) }
{
    let defaults = theory.defaults;
    let mut places = Vars::empty();
    for (index, default) in defaults.iter().enumerate() {
        if holds(default, part, theory.asked.atoms, values) {
            places = places.with(index as u32);
        }
    }
    places
}

/// What this assignment, under which the facts hold, shows.
pub(crate) fn upper_at(theory: &Theory<'_>, values: Vars) -> Upper
    ensures { ShowsParts (true_names 0 (theory_names theory.now) values)
        (length theory.now.defaults.now) (theory_defaults theory.now) values result }
{
    Upper {
        values,
        set: holding(theory, Part::Consequent, values),
        supported: holding(theory, Part::Prerequisite, values),
        allowed: holding(theory, Part::Justifications, values),
    }
}
