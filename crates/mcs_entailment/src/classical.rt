//! Certificates of classical contexts.

ghost use Rattle.std.specs.Prelude.{◌≡◌, ℕ, [], ◌∷◌, ◌++◌, List, map, IfOk, MatchOption};
ghost use Rattle.mcs_system.specs.Seen.{formula_of};
ghost use Rattle.mcs_asked.specs.Questions.{asked_beliefs};
ghost use Rattle.mcs_cnf.specs.ClauseLists.{AreOver};
ghost use Rattle.mcs_cnf.specs.Classical.{IsAcceptedClassical, certificate_of};

use crate::entailment::shown_places;
use crate::premises::{clauses_of, formulas_with};
use mcs_asked::Asked;
use mcs_base::{Memory, Vars};
use mcs_system::Formula;
use mcs_trace::ClassicalCert;
use std::alloc::Global;

/// The list of this one view.
pub fn one_view(alloc: Global, view: Vars) -> Result<Vec<Vars>, Memory>
    ensures { IfOk result (λ views. views.items ≡ view ∷ []) }
{
    let mut views = Vec::new(alloc);
    views.push(view)?;
    Ok(views)
}

/// The one view that the certificate shows for the formulas with the heads, if it is accepted.
pub fn classical_views(
    alloc: Global,
    formulas: &[Formula],
    heads: &[&Formula],
    asked: &Asked<'_>,
    cert: &ClassicalCert,
) -> Result<Option<Vec<Vars>>, Memory>
    requires formulas { AreOver asked.now.atoms.now (map formula_of formulas.now) }
    requires heads { AreOver asked.now.atoms.now (map (λ f. formula_of f.now) heads.now) }
    ensures { IfOk result (λ shown. MatchOption shown
        ((views : List ℕ) → ¬ IsAcceptedClassical asked.now.atoms.now
        (map formula_of formulas.now ++ map (λ f. formula_of f.now) heads.now)
        (asked_beliefs asked.now) views (certificate_of cert.now))
        (λ views. IsAcceptedClassical asked.now.atoms.now
        (map formula_of formulas.now ++ map (λ f. formula_of f.now) heads.now)
        (asked_beliefs asked.now) views.items (certificate_of cert.now))) }
{
    let premises = formulas_with(alloc, formulas, heads)?;
    let mut known = clauses_of(alloc, asked, &premises)?;
    let shown = shown_places(alloc, &mut known, asked, &premises, &cert.entails)?;
    let Some(view) = shown else {
        return Ok(None);
    };
    let views = one_view(alloc, view)?;
    Ok(Some(views))
}
