//! Whether a certificate of a context is accepted.

ghost use Rattle.std.specs.Prelude.{◌≡◌, ℕ, ◌<◌, ◌↔◌, List, length, map, IsTrue, IfOk, MatchOption};
ghost use Rattle.mcs_sets.specs.Orders.{StateBefore};
ghost use Rattle.mcs_sets.specs.Sets.{Within};
ghost use Rattle.mcs_base.specs.Listings.{IsListing};
ghost use Rattle.mcs_system.specs.Imports.{rules_into};
ghost use Rattle.mcs_system.specs.Systems.{variables_of, IsAcceptedPart};
ghost use Rattle.mcs_system.specs.Views.{at_places};
ghost use Rattle.mcs_asking.specs.Certificates.{plain_of, IsAccepted};
ghost use Rattle.mcs_certificate.specs.Questions.{AreViewsShown};

use crate::question::Question;
use mcs_answer_sets::program_views;
use mcs_asked::Asked;
use mcs_asking::{AnswerCert, beliefs_of, heads_into, parts_at};
use mcs_base::{Active, Memory, Vars};
use mcs_entailment::classical_views;
use mcs_extensions::default_views;
use mcs_system::{Kb, System};
use std::alloc::Global;

/// The views that the certificate shows for the knowledge base with the heads, if it is accepted. A
/// certificate of another kind than the knowledge base is not.
fn shown_views(
    alloc: Global,
    question: &Question<'_>,
    cert: &AnswerCert,
) -> Result<Option<Vec<Vars>>, Memory>
    ensures { IfOk result (λ shown. MatchOption shown
        ((views : List ℕ) → ¬ AreViewsShown question.now views (plain_of cert.now))
        (λ views. AreViewsShown question.now views.items (plain_of cert.now))) }
{
    let asked = question.asked;
    let heads = question.heads;
    match question.kb {
        Kb::Classical(formulas) => {
            let AnswerCert::Classical(cert) = cert else {
                return Ok(None);
            };
            classical_views(alloc, formulas, heads, asked, cert)
        }
        Kb::DefaultTheory(items) => {
            let AnswerCert::Default(cert) = cert else {
                return Ok(None);
            };
            default_views(alloc, items, heads, asked, cert)
        }
        Kb::Program(rules) => {
            let AnswerCert::Program(cert) = cert else {
                return Ok(None);
            };
            program_views(alloc, rules, heads, asked, cert)
        }
    }
}

/// Whether the outputs are, for each of the views in order, the variables of the context at its
/// places. The context has to be one of the system's.
pub fn are_parts(
    alloc: Global,
    system: &System,
    context: u32,
    views: &[Vars],
    outputs: &[Vars],
) -> Result<bool, Memory>
    requires { context < length system.now.contexts }
    ensures { IfOk result (λ yes. IsTrue yes
        ↔ (map (at_places (variables_of system.now context)) views.now ≡ outputs.now)) }
{
    let parts = parts_at(alloc, system.vars_of(context), views)?;
    Ok(parts.as_slice() == outputs)
}

/// Whether the certificate is accepted as showing that the context accepts exactly these outputs
/// with the heads of the rules. The context has to be one of the system's, and the rules have to go
/// into it. The outputs are sets of variables of the context, strictly ascending in the order of
/// states.
///
/// No search is done: traces are checked, and formulas and rules are evaluated. A certificate of
/// another kind than the context's, or of the wrong shape, is not accepted.
///
/// If the result is true, the outputs are what the context accepts (`accepted_answers_are_right`).
/// `Memory` may be returned in place of a result.
pub fn accepts(
    alloc: Global,
    system: &System,
    context: u32,
    active: Active,
    outputs: &[Vars],
    cert: &AnswerCert,
) -> Result<bool, Memory>
    requires context { context < length system.now.contexts }
    requires rules { Within active (rules_into system.now context) }
    ensures exact { IfOk result (λ yes. IsTrue yes
        ↔ IsAccepted system.now context active outputs.now (plain_of cert.now)) }
    ensures right { IfOk result (λ yes. IsTrue yes
        → IsListing (IsAcceptedPart system.now context active) StateBefore outputs.now) }
{
    let heads = heads_into(alloc, system, context, active)?;
    let beliefs = beliefs_of(alloc, system, context)?;
    let kb = &system.contexts()[context as usize].kb;
    let asked = Asked {
        atoms: system.atoms_of(context),
        beliefs: &beliefs,
    };
    let question = Question {
        asked: &asked,
        kb,
        heads: &heads,
    };
    let shown = shown_views(alloc, &question, cert)?;
    let Some(views) = shown else {
        return Ok(false);
    };
    are_parts(alloc, system, context, &views, outputs)
}
