//! What a classical context believes.

ghost use Rattle.std.specs.Prelude.{◌≡◌, ◌<◌, ◌≤◌, ◌++◌, List, [], ◌∷◌, cond, false, length, map};
ghost use Rattle.std.specs.Prelude.{IfOk};
ghost use Rattle.mcs_sets.specs.Sets.{single, union};
ghost use Rattle.mcs_sets.specs.Orders.{StateBefore};
ghost use Rattle.mcs_base.specs.Listings.{IsListing};
ghost use Rattle.mcs_system.specs.Faults.{has_twins};
ghost use Rattle.mcs_system.specs.Plain.{Classical};
ghost use Rattle.mcs_system.specs.Plain as plain;
ghost use Rattle.mcs_system.specs.Seen.{formula_of};
ghost use Rattle.mcs_system.specs.Views.{IsAcceptedView};
ghost use Rattle.mcs_cnf.specs.ClauseLists.{AreOver};
ghost use Rattle.mcs_cnf.specs.Classical.{IsAcceptedClassical, certificate_of};
ghost use Rattle.mcs_cnf.specs.Entailments.{entailment_of, says_yes};
ghost use Rattle.mcs_classical.specs.Calls.{AnswersBeliefs};
ghost use Rattle.mcs_classical.specs.Given.{given_names, given_beliefs};

use crate::adding::add_formulas;
use crate::consequence::entails_beside;
use crate::given::Given;
use mcs_asked::Asked;
use mcs_base::{Memory, Vars};
use mcs_cnf::{clauses, model_shown};
use mcs_sat::ClauseBase;
use mcs_system::{Formula, Name};
use mcs_trace::{ClassicalCert, Cnf, Entail};
use std::alloc::Global;

/// The state, with the number added if the entailment is a `yes`.
fn with_yes(state: Vars, number: u32, entail: &Entail) -> Vars
    requires { number < 64 }
    ensures { result
        ≡ cond (says_yes (entailment_of entail.now)) (union state (single number)) state }
{
    match entail {
        Entail::Yes(_) => state.with(number),
        Entail::No(_) => state,
    }
}

/// The one view of the beliefs that a classical context accepts: the numbers, from 0, of those that
/// follow from the formulas; and a certificate, for each, that it follows or does not. All atoms
/// have to be among `atoms`, of which there are at most 64, and there may be at most 64 beliefs.
/// The clauses of the formulas are made once.
pub fn outputs(
    alloc: Global,
    kb: &[Formula],
    beliefs: &[Formula],
    atoms: &[Name],
) -> Result<(Vars, ClassicalCert), Memory>
    requires few { length atoms.now ≤ 64 }
    requires few_beliefs { length beliefs.now ≤ 64 }
    requires different { has_twins atoms.now ≡ false }
    requires kb { AreOver atoms.now (map formula_of kb.now) }
    requires beliefs { AreOver atoms.now (map formula_of beliefs.now) }
    ensures exact { IfOk result
        (λ r. IsListing (IsAcceptedView (Classical (map formula_of kb.now))
        (map formula_of beliefs.now)) StateBefore (r.0 ∷ [])) }
    ensures accepted { IfOk result
        (λ r. IsAcceptedClassical atoms.now (map formula_of kb.now) (map formula_of beliefs.now)
        (r.0 ∷ [])
        (certificate_of r.1)) }
{
    let mut known = clauses(alloc, kb, atoms)?;
    let lent: Vec<&Formula> = beliefs.iter().collect(alloc)?;
    let asked = Asked {
        atoms,
        beliefs: &lent,
    };
    let given = Given {
        asked: &asked,
        assumptions: &[],
    };
    outputs_from(alloc, &mut known, &given)
}

/// The same for formulas whose clauses are `known`, and for references to beliefs. What may be
/// assumed plays no part. The clauses of each belief are added for the search and removed again. So
/// `known` is as before, also if memory runs out, and can be used for the next question, with what
/// was learnt. The assignment under which a belief does not follow is tried on the next ones before
/// any search.
pub fn outputs_in(
    alloc: Global,
    known: &mut ClauseBase,
    given: &Given<'_>,
) -> Result<(Vars, ClassicalCert), Memory>
    requires { length (given_names given.now) ≤ known.old.vars }
    ensures { AnswersBeliefs (given_names given.now) (given_beliefs given.now) (λ fs. fs) known.old
        known.new result }
{
    let beliefs = given.asked.beliefs;
    let mut state = Vars::empty();
    let mut model: Option<Vars> = None;
    let mut entails = Vec::new(alloc);
    for (number, belief) in beliefs.iter().enumerate() {
        let entail = entails_beside(alloc, known, &model, belief, given)?;
        state = with_yes(state, number as u32, &entail);
        model = model_shown(model, &entail);
        entails.push(entail)?;
    }
    Ok((state, ClassicalCert { entails }))
}

/// The same with more formulas beside those. Their clauses are added for the search and removed
/// again, also if memory runs out.
pub fn outputs_with(
    alloc: Global,
    known: &mut ClauseBase,
    added: &[&Formula],
    given: &Given<'_>,
) -> Result<(Vars, ClassicalCert), Memory>
    requires added { AreOver (given_names given.now) (map (λ f. formula_of f.now) added.now) }
    requires room { length (given_names given.now) ≤ known.old.vars }
    ensures { AnswersBeliefs (given_names given.now) (given_beliefs given.now)
        (λ fs. fs ++ map (λ f. formula_of f.now) added.now) known.old known.new result }
{
    let vars = known.vars();
    let count = known.count();
    add_formulas(alloc, known, added, given.asked.atoms)?;
    let shown = outputs_in(alloc, known, given);
    known.cut(vars, count);
    shown
}

/// The same for a list of clauses, which is preprocessed once for all beliefs, and is left
/// unchanged.
pub fn outputs_from(
    alloc: Global,
    known: &mut Cnf,
    given: &Given<'_>,
) -> Result<(Vars, ClassicalCert), Memory>
    requires { length (given_names given.now) ≤ known.old.vars }
    ensures { AnswersBeliefs (given_names given.now) (given_beliefs given.now) (λ fs. fs) known.old
        known.new result }
{
    let mut base = ClauseBase::of(alloc, known)?;
    let shown = outputs_in(alloc, &mut base, given);
    drop(base);
    shown
}
