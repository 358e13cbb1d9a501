//! What a knowledge base accepts with heads, as views of beliefs, by the logic of its kind.

ghost use Rattle.std.specs.Prelude.{◌≡◌, ◌≤◌, ℕ, List, [], ◌∷◌, ◌++◌, None, length, map, IfOk};
ghost use Rattle.std.specs.Prelude.{OnOk, IsTrue, ◌↔◌};
ghost use Rattle.std.specs.List.{AllByRecursion};
ghost use Rattle.mcs_sets.specs.Orders.{StateBefore};
ghost use Rattle.mcs_base.specs.Listings.{IsListing};
ghost use Rattle.mcs_system.specs.Faults.{is_atom};
ghost use Rattle.mcs_system.specs.Plain.{Classical, DefaultTheory, Program};
ghost use Rattle.mcs_system.specs.Plain as plain;
ghost use Rattle.mcs_system.specs.Seen.{formula_of, item_of, rule_of, kb_of};
ghost use Rattle.mcs_system.specs.Views.{IsAcceptedView};
ghost use Rattle.mcs_cnf.specs.Classical.{IsAcceptedClassical, certificate_of};
ghost use Rattle.mcs_cnf.specs.ClauseLists.{AreOver, clause_list, with_formulas};
ghost use Rattle.mcs_meant.specs.Meanings.{AreMeantBy};
ghost use Rattle.mcs_evidence.specs.Defaults.{AreOverItems, defaults_of};
ghost use Rattle.mcs_evidence.specs.Programs.{AreOverRules};
ghost use Rattle.mcs_asking.specs.Certificates.{IsAcceptedFor};
ghost use Rattle.mcs_asking.specs.Kinds.{part_count, IsOverKb, AreOfKind};
ghost use Rattle.mcs_keeping.specs.Certified.{IsCertified};
ghost use Rattle.mcs_solver.specs.Kinds.{IsMadeOf, IsMadeOfFormulas, IsMadeOfItems};
ghost use Rattle.mcs_solver.specs.Questions.{asked_names, asked_beliefs, asked_heads, AreAnswer};
ghost use Rattle.mcs_solver.specs.Questions.{IsAnswerShown, IsMadeFor};

use crate::known::Known;
use crate::question::Question;
use mcs_asked::Asked;
use mcs_asking::AnswerCert;
use mcs_base::{Memory, Vars};
use mcs_classical::{Consequences, add_formulas, add_meant, assumed, outputs_with};
use mcs_default::{TheoryBase, extensions_from};
use mcs_evidence::defaults_of;
use mcs_program::{answer_sets_from, list_answer_sets};
use mcs_sat::ClauseBase;
use mcs_system::{Formula, Kb, Name, ProgRule, TheoryItem, names_of};
use mcs_trace::ClassicalCert;
use std::alloc::Global;

/// Adds the clauses of the formulas, one formula after the other, and preprocesses them. If memory
/// runs out, only those of the first ones are added.
fn keep_formulas(
    alloc: Global,
    known: &mut ClauseBase,
    formulas: &[Formula],
    atoms: &[Name],
) -> Result<(), Memory>
    requires over { AreOver atoms.now (map formula_of formulas.now) }
    requires room { length atoms.now ≤ known.old.vars }
    ensures { OnOk result (known.new
        ≡ with_formulas atoms.now known.old (map formula_of formulas.now)) }
{
    for formula in formulas {
        add_formulas(alloc, known, &[formula], atoms)?;
    }
    known.settle()
}

/// The clauses of the formulas, preprocessed for many searches.
fn made_clauses(alloc: Global, formulas: &[Formula], atoms: &[Name]) -> Result<ClauseBase, Memory>
    requires { AreOver atoms.now (map formula_of formulas.now) }
    ensures { IfOk result (λ c. c ≡ clause_list atoms.now (map formula_of formulas.now)) }
{
    let mut known = ClauseBase::new(alloc, atoms.len() as u64)?;
    match keep_formulas(alloc, &mut known, formulas, atoms) {
        Ok(()) => Ok(known),
        Err(error) => {
            drop(known);
            Err(error)
        }
    }
}

/// The clauses of the formulas, as a certificate numbers them. They are taken out of `known`, or
/// made.
fn kept_clauses(
    alloc: Global,
    known: &mut Option<Known>,
    formulas: &[Formula],
    atoms: &[Name],
) -> Result<ClauseBase, Memory>
    requires { AreOver atoms.now (map formula_of formulas.now) }
    ensures made { IfOk result (λ c. (heads : ℕ → List plain.Formula) (beliefs : List plain.Formula)
        → IsMadeOf atoms.now (Classical (map formula_of formulas.now)) heads beliefs known.old
        → c ≡ clause_list atoms.now (map formula_of formulas.now)) }
    ensures none { known.new ≡ None }
{
    match known.take() {
        Some(Known::Certified(clauses)) => Ok(clauses),
        other => {
            drop(other);
            made_clauses(alloc, formulas, atoms)
        }
    }
}

/// The one view that a classical context accepts, with its certificate. The clauses of its formulas
/// are kept.
fn shown_view(
    alloc: Global,
    known: &mut Option<Known>,
    formulas: &[Formula],
    question: &Question<'_>,
) -> Result<(Vars, ClassicalCert), Memory>
    requires formulas { AreOver (asked_names question.now) (map formula_of formulas.now) }
    requires made { IsMadeFor question.now (Classical (map formula_of formulas.now)) known.old }
    ensures made { IsMadeFor question.now (Classical (map formula_of formulas.now)) known.new }
    ensures exact { IfOk result (λ r. AreAnswer question.now
        (Classical (map formula_of formulas.now)) (r.0 ∷ [])) }
    ensures shown { IfOk result (λ r. IsAcceptedClassical (asked_names question.now)
        (map formula_of formulas.now ++ asked_heads question.now) (asked_beliefs question.now)
        (r.0 ∷ []) (certificate_of r.1)) }
{
    let given = question.given;
    let heads = assumed(alloc, given.assumptions, question.rules)?;
    let mut clauses = kept_clauses(alloc, known, formulas, given.asked.atoms)?;
    let shown = outputs_with(alloc, &mut clauses, &heads, given);
    *known = Some(Known::Certified(clauses));
    shown
}

/// Adds clauses that mean the formulas, one formula after the other, and preprocesses them.
fn keep_meanings(
    alloc: Global,
    known: &mut ClauseBase,
    formulas: &[Formula],
    atoms: &[Name],
) -> Result<(), Memory>
    requires over { AreOver atoms.now (map formula_of formulas.now) }
    requires meant { AreMeantBy atoms.now [] known.old }
    ensures { OnOk result (AreMeantBy atoms.now (map formula_of formulas.now) known.new) }
{
    for formula in formulas {
        add_meant(alloc, known, formula, atoms)?;
    }
    known.settle()
}

/// Clauses that mean the formulas, preprocessed for many searches. They are fewer than those that a
/// certificate numbers.
fn made_meanings(alloc: Global, formulas: &[Formula], atoms: &[Name]) -> Result<ClauseBase, Memory>
    requires { AreOver atoms.now (map formula_of formulas.now) }
    ensures { IfOk result (AreMeantBy atoms.now (map formula_of formulas.now)) }
{
    let mut known = ClauseBase::new(alloc, atoms.len() as u64)?;
    match keep_meanings(alloc, &mut known, formulas, atoms) {
        Ok(()) => Ok(known),
        Err(error) => {
            drop(known);
            Err(error)
        }
    }
}

/// Clauses that mean the formulas, and what was found to follow from these. They are taken out of
/// `known`, or made. If they are made, it is found at once that the beliefs follow that are
/// literally among the formulas.
fn kept_formulas(
    alloc: Global,
    known: &mut Option<Known>,
    formulas: &[Formula],
    asked: &Asked<'_>,
) -> Result<(ClauseBase, Consequences), Memory>
    requires { AreOver asked.now.atoms.now (map formula_of formulas.now) }
    ensures made { IfOk result (λ r. (heads : ℕ → List plain.Formula)
        → IsMadeOf asked.now.atoms.now (Classical (map formula_of formulas.now)) heads
        (map (λ f. formula_of f.now) asked.now.beliefs.now) known.old
        → IsMadeOfFormulas asked.now.atoms.now (map formula_of formulas.now) heads
        (map (λ f. formula_of f.now) asked.now.beliefs.now) r.0 r.1) }
    ensures none { known.new ≡ None }
{
    match known.take() {
        Some(Known::Classical { clauses, found }) => Ok((clauses, found)),
        other => {
            drop(other);
            let found = Consequences::of(alloc, formulas, asked)?;
            match made_meanings(alloc, formulas, asked.atoms) {
                Ok(clauses) => Ok((clauses, found)),
                Err(error) => {
                    drop(found);
                    Err(error)
                }
            }
        }
    }
}

/// The one view that a classical context accepts. What was found before is used as far as possible,
/// and what is found is kept.
fn followed_view(
    alloc: Global,
    known: &mut Option<Known>,
    formulas: &[Formula],
    question: &Question<'_>,
) -> Result<Vars, Memory>
    requires formulas { AreOver (asked_names question.now) (map formula_of formulas.now) }
    requires made { IsMadeFor question.now (Classical (map formula_of formulas.now)) known.old }
    ensures made { IsMadeFor question.now (Classical (map formula_of formulas.now)) known.new }
    ensures exact { IfOk result (λ view. AreAnswer question.now
        (Classical (map formula_of formulas.now)) (view ∷ [])) }
{
    let given = question.given;
    let (mut clauses, mut found) = kept_formulas(alloc, known, formulas, given.asked)?;
    let view = found.following(alloc, &mut clauses, given, question.rules);
    *known = Some(Known::Classical { clauses, found });
    view
}

/// The one view that a classical context accepts, with a certificate if one is wanted.
fn classical_view(
    alloc: Global,
    known: &mut Option<Known>,
    formulas: &[Formula],
    question: &Question<'_>,
) -> Result<(Vars, Option<AnswerCert>), Memory>
    requires formulas { AreOver (asked_names question.now) (map formula_of formulas.now) }
    requires made { IsMadeFor question.now (Classical (map formula_of formulas.now)) known.old }
    ensures made { IsMadeFor question.now (Classical (map formula_of formulas.now)) known.new }
    ensures exact { IfOk result (λ r. AreAnswer question.now
        (Classical (map formula_of formulas.now)) (r.0 ∷ [])) }
    ensures certified { IfOk result (λ r. IsAnswerShown question.now
        (Classical (map formula_of formulas.now)) (r.0 ∷ []) r.1) }
{
    if question.certify {
        let (view, cert) = shown_view(alloc, known, formulas, question)?;
        Ok((view, Some(AnswerCert::Classical(cert))))
    } else {
        let view = followed_view(alloc, known, formulas, question)?;
        Ok((view, None))
    }
}

/// The one view of no beliefs that a classical context accepts, whatever its formulas are, with a
/// certificate if `certify` holds.
fn view_of_nothing(alloc: Global, certify: bool) -> Result<(Vec<Vars>, Option<AnswerCert>), Memory>
    ensures exact { IfOk result (λ r. (fs : List plain.Formula)
        → IsListing (IsAcceptedView (Classical fs) []) StateBefore r.0.items) }
    ensures certified { IfOk result (λ r. (names : List plain.Name) (fs : List plain.Formula)
        → IsCertified certify (IsAcceptedFor names (Classical fs) [] r.0.items) r.1) }
{
    let mut views = Vec::new(alloc);
    views.push(Vars::empty())?;
    if !certify {
        return Ok((views, None));
    }
    let cert = ClassicalCert {
        entails: Vec::new(alloc),
    };
    Ok((views, Some(AnswerCert::Classical(cert))))
}

/// The views that a classical context accepts. Clauses are kept once they are made, with what was
/// found to follow. Where no belief is asked for, none are made.
fn classical_views(
    alloc: Global,
    known: &mut Option<Known>,
    formulas: &[Formula],
    question: &Question<'_>,
) -> Result<(Vec<Vars>, Option<AnswerCert>), Memory>
    requires formulas { AreOver (asked_names question.now) (map formula_of formulas.now) }
    requires made { IsMadeFor question.now (Classical (map formula_of formulas.now)) known.old }
    ensures made { IsMadeFor question.now (Classical (map formula_of formulas.now)) known.new }
    ensures exact { IfOk result (λ r. AreAnswer question.now
        (Classical (map formula_of formulas.now)) r.0.items) }
    ensures certified { IfOk result (λ r. IsAnswerShown question.now
        (Classical (map formula_of formulas.now)) r.0.items r.1) }
{
    if question.given.asked.beliefs.is_empty() {
        return view_of_nothing(alloc, question.certify);
    }
    let (view, cert) = classical_view(alloc, known, formulas, question)?;
    let mut views = Vec::new(alloc);
    match views.push(view) {
        Ok(()) => Ok((views, cert)),
        Err(refused) => {
            drop(cert);
            Err(Memory::from(refused))
        }
    }
}

/// The default theory of the items, with what was found of it. It is taken out of `known`, or made.
fn kept_theory(
    alloc: Global,
    known: &mut Option<Known>,
    items: &[TheoryItem],
    asked: &Asked<'_>,
) -> Result<TheoryBase, Memory>
    requires { AreOverItems asked.now.atoms.now (map item_of items.now) }
    ensures made { IfOk result (λ base. (heads : ℕ → List plain.Formula)
        (beliefs : List plain.Formula)
        → IsMadeOf asked.now.atoms.now (DefaultTheory (map item_of items.now)) heads beliefs
        known.old
        → IsMadeOfItems asked.now.atoms.now (map item_of items.now) heads base) }
    ensures none { known.new ≡ None }
{
    match known.take() {
        Some(Known::Theory(base)) => Ok(base),
        other => {
            drop(other);
            TheoryBase::new(alloc, items, asked.atoms)
        }
    }
}

/// Whether the theory has no defaults. Then it accepts all consequences of its facts, and nothing
/// else.
fn has_no_defaults(alloc: Global, items: &[TheoryItem]) -> Result<bool, Memory>
    ensures { IfOk result (λ b. IsTrue b ↔ (defaults_of (map item_of items.now) ≡ [])) }
{
    let defaults = defaults_of(alloc, items)?;
    Ok(defaults.is_empty())
}

/// The views that a default theory accepts, without a certificate. What was found before is used as
/// far as possible, and what is found is kept.
fn listed_views(
    alloc: Global,
    known: &mut Option<Known>,
    items: &[TheoryItem],
    question: &Question<'_>,
) -> Result<Vec<Vars>, Memory>
    requires few_defaults { length (defaults_of (map item_of items.now)) ≤ 10 }
    requires items { AreOverItems (asked_names question.now) (map item_of items.now) }
    requires made { IsMadeFor question.now (DefaultTheory (map item_of items.now)) known.old }
    ensures made { IsMadeFor question.now (DefaultTheory (map item_of items.now)) known.new }
    ensures exact { IfOk result (λ views. AreAnswer question.now
        (DefaultTheory (map item_of items.now)) views.items) }
{
    let given = question.given;
    let mut base = kept_theory(alloc, known, items, given.asked)?;
    let listed = base.list_extensions(alloc, items, given, question.rules);
    *known = Some(Known::Theory(base));
    listed
}

/// The views that a default theory accepts. Where no certificate is wanted, no belief is asked for
/// and there are no defaults, no clauses are made.
fn theory_views(
    alloc: Global,
    known: &mut Option<Known>,
    items: &[TheoryItem],
    question: &Question<'_>,
) -> Result<(Vec<Vars>, Option<AnswerCert>), Memory>
    requires few_defaults { length (defaults_of (map item_of items.now)) ≤ 10 }
    requires items { AreOverItems (asked_names question.now) (map item_of items.now) }
    requires made { IsMadeFor question.now (DefaultTheory (map item_of items.now)) known.old }
    ensures made { IsMadeFor question.now (DefaultTheory (map item_of items.now)) known.new }
    ensures exact { IfOk result (λ r. AreAnswer question.now
        (DefaultTheory (map item_of items.now)) r.0.items) }
    ensures certified { IfOk result (λ r. IsAnswerShown question.now
        (DefaultTheory (map item_of items.now)) r.0.items r.1) }
{
    let given = question.given;
    if question.certify {
        let heads = assumed(alloc, given.assumptions, question.rules)?;
        let (views, cert) = extensions_from(alloc, items, &heads, given)?;
        return Ok((views, Some(AnswerCert::Default(cert))));
    }
    if given.asked.beliefs.is_empty() && has_no_defaults(alloc, items)? {
        return view_of_nothing(alloc, false);
    }
    let views = listed_views(alloc, known, items, question)?;
    Ok((views, None))
}

/// The views of the answer sets of a program. The heads and the beliefs have to be atoms.
fn program_views(
    alloc: Global,
    rules: &[ProgRule],
    question: &Question<'_>,
) -> Result<(Vec<Vars>, Option<AnswerCert>), Memory>
    requires rules { AreOverRules (asked_names question.now) (map rule_of rules.now) }
    requires heads { AllByRecursion (λ (f : plain.Formula). IsTrue (is_atom f))
        (asked_heads question.now) }
    requires beliefs { AllByRecursion (λ (f : plain.Formula). IsTrue (is_atom f))
        (asked_beliefs question.now) }
    ensures exact { IfOk result (λ r. AreAnswer question.now
        (Program (map rule_of rules.now)) r.0.items) }
    ensures certified { IfOk result (λ r. IsAnswerShown question.now
        (Program (map rule_of rules.now)) r.0.items r.1) }
{
    let given = question.given;
    let atoms = given.asked.atoms;
    let heads = assumed(alloc, given.assumptions, question.rules)?;
    let facts = names_of(alloc, &heads)?;
    let asked = names_of(alloc, given.asked.beliefs)?;
    if question.certify {
        let (views, cert) = answer_sets_from(alloc, rules, &facts, &asked, atoms)?;
        Ok((views, Some(AnswerCert::Program(cert))))
    } else {
        let views = list_answer_sets(alloc, rules, &facts, &asked, atoms)?;
        Ok((views, None))
    }
}

/// The views of the beliefs that the knowledge base accepts with the heads of the rules: each once,
/// in the order of states. For a classical knowledge base the clauses are kept once they are made,
/// with what was found to follow. For a default theory without a certificate the clauses of its
/// facts are kept, with what was found of it.
pub(crate) fn accepted_views(
    alloc: Global,
    known: &mut Option<Known>,
    kb: &Kb,
    question: &Question<'_>,
) -> Result<(Vec<Vars>, Option<AnswerCert>), Memory>
    requires few_parts { part_count (kb_of kb.now) ≤ 10 }
    requires kb { IsOverKb (asked_names question.now) (kb_of kb.now) }
    requires heads { AreOfKind (kb_of kb.now) (asked_heads question.now) }
    requires beliefs { AreOfKind (kb_of kb.now) (asked_beliefs question.now) }
    requires made { IsMadeFor question.now (kb_of kb.now) known.old }
    ensures made { IsMadeFor question.now (kb_of kb.now) known.new }
    ensures exact { IfOk result (λ r. AreAnswer question.now (kb_of kb.now) r.0.items) }
    ensures certified { IfOk result (λ r. IsAnswerShown question.now (kb_of kb.now) r.0.items r.1) }
{
    match kb {
        Kb::Classical(formulas) => classical_views(alloc, known, formulas, question),
        Kb::DefaultTheory(items) => theory_views(alloc, known, items, question),
        Kb::Program(clauses) => program_views(alloc, clauses, question),
    }
}
