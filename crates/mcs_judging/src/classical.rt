//! Certificates of classical contexts.

ghost use Rattle.std.specs.Prelude.{◌++◌, length, map};
ghost use Rattle.mcs_system.specs.Seen.{formula_of};
ghost use Rattle.mcs_cnf.specs.ClauseLists.{AreOver};
ghost use Rattle.mcs_cnf.specs.Classical.{IsAcceptedClassical};
ghost use Rattle.mcs_asked.specs.Questions.{asked_beliefs};
ghost use Rattle.mcs_proof_lines.specs.Walks.{entailment_at, many_at};
ghost use Rattle.mcs_judging.specs.Judging.{Tells, AreViewsOf};

use crate::entailments::judge_places;
use crate::named::Named;
use mcs_base::Vars;
use mcs_entailment::{clauses_of, formulas_with, one_view};
use mcs_proof_lines::{Lines, ReportFault};
use mcs_system::Formula;
use std::alloc::Global;

/// Reads the certificate of a classical context, one entailment for each of its beliefs, and
/// returns the one view that it shows for the formulas with the heads, if it is accepted.
pub fn judge_classical(
    alloc: Global,
    formulas: &[Formula],
    heads: &[&Formula],
    named: &Named<'_>,
    lines: &mut Lines<'_>,
) -> Result<Option<Vec<Vars>>, ReportFault>
    requires formulas { AreOver named.now.asked.now.atoms.now (map formula_of formulas.now) }
    requires heads { AreOver named.now.asked.now.atoms.now (map (λ f. formula_of f.now) heads.now) }
    ensures { Tells (AreViewsOf (IsAcceptedClassical named.now.asked.now.atoms.now
        (map formula_of formulas.now ++ map (λ f. formula_of f.now) heads.now)
        (asked_beliefs named.now.asked.now))) result lines.new
        (many_at (entailment_at named.now.texts.now)
        (length named.now.asked.now.beliefs.now) lines.old) }
{
    let premises = formulas_with(alloc, formulas, heads)?;
    let mut known = clauses_of(alloc, named.asked, &premises)?;
    let shown = judge_places(alloc, &mut known, named, &premises, lines)?;
    let Some(view) = shown else {
        return Ok(None);
    };
    let views = one_view(alloc, view)?;
    Ok(Some(views))
}
