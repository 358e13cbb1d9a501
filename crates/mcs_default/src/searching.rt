//! A default theory that is searched.

ghost use Rattle.std.specs.Prelude.{map};
ghost use Rattle.mcs_system.specs.Seen.{default_of};
ghost use Rattle.mcs_default.specs.Searches.{CanBeAsked};
ghost use Rattle.mcs_default.specs.SearchProofs.{CanBeAsked-prop};

use crate::findings::Findings;
use mcs_grounding::Theory;

/// What is asked of a default theory, with the clauses of its facts and what was found of sets of
/// its defaults.
#[derive(Drop)]
pub(crate) struct Search<'a> {
    pub(crate) theory: &'a Theory<'a>,
    pub(crate) findings: Findings,
    ghost ready: { CanBeAsked theory.now.asked.now.atoms.now
        (map (λ d. default_of d.now) theory.now.defaults.now) findings } by { CanBeAsked-prop
            theory.now.asked.now.atoms.now (map (λ d. default_of d.now)
            theory.now.defaults.now) findings },
}
