//! Certificates of default theories.

ghost use Rattle.std.specs.Prelude.{◌≡◌, ℕ, ◌≤◌, ◌++◌, ◌^◌, List, length, map, IfOk, MatchOption};
ghost use Rattle.mcs_system.specs.Plain.{Fact};
ghost use Rattle.mcs_system.specs.Seen.{formula_of, item_of};
ghost use Rattle.mcs_cnf.specs.ClauseLists.{clause_list, AreOver};
ghost use Rattle.mcs_evidence.specs.Defaults.{AreOverItems, IsAcceptedDefault, facts_of};
ghost use Rattle.mcs_evidence.specs.Defaults.{defaults_of, verdict_of, verdicts_of};
ghost use Rattle.mcs_asked.specs.Questions.{asked_beliefs, theory_names, theory_items};
ghost use Rattle.mcs_asked.specs.Questions.{theory_beliefs};

use crate::theory::facts_with;
use crate::verdict::{Judged, judge};
use mcs_asked::{Asked, AskedTheory};
use mcs_base::{Memory, Vars, list_states};
use mcs_entailment::clauses_of;
use mcs_evidence::defaults_of;
use mcs_system::{Formula, TheoryItem};
use mcs_trace::{Cnf, DefaultCert, SetCert};
use std::alloc::Global;

/// The number of sets of this many defaults.
fn set_count(defaults: usize) -> usize
    requires { defaults ≤ 10 }
    ensures { result ≡ 2 ^ defaults }
{
    1 << defaults
}

/// The views that the verdicts on all sets of the defaults show, if each verdict is accepted.
/// `known` has the clauses of the facts.
fn judge_all(
    alloc: Global,
    known: &mut Cnf,
    theory: &AskedTheory<'_>,
    verdicts: &[SetCert],
) -> Result<Option<Vec<Vars>>, Memory>
    requires { known.old
        ≡ clause_list (theory_names theory.now) (facts_of (theory_items theory.now)) }
    ensures { IfOk result (λ shown. MatchOption shown
        ((views : List ℕ) → ¬ IsAcceptedDefault (theory_names theory.now) (theory_items theory.now)
        (theory_beliefs theory.now) views (map verdict_of verdicts.now))
        (λ views. IsAcceptedDefault (theory_names theory.now) (theory_items theory.now)
        (theory_beliefs theory.now) views.items (map verdict_of verdicts.now))) }
{
    let count = set_count(theory.defaults.len());
    if verdicts.len() != count {
        return Ok(None);
    }
    let mut views = Vec::new(alloc);
    for (number, verdict) in verdicts.iter().enumerate() {
        let set = Vars::numbered(number as u64);
        let judged = judge(alloc, known, theory, set, verdict)?;
        match judged {
            Judged::Refused => return Ok(None),
            Judged::Passed => {}
            Judged::Shows(view) => views.push(view)?,
        }
    }
    list_states(&mut views);
    Ok(Some(views))
}

/// The views that the certificate shows for the theory with the heads as facts, if it is accepted.
pub fn default_views(
    alloc: Global,
    items: &[TheoryItem],
    heads: &[&Formula],
    asked: &Asked<'_>,
    cert: &DefaultCert,
) -> Result<Option<Vec<Vars>>, Memory>
    requires few_defaults { length (defaults_of (map item_of items.now)) ≤ 10 }
    requires items { AreOverItems asked.now.atoms.now (map item_of items.now) }
    requires heads { AreOver asked.now.atoms.now (map (λ f. formula_of f.now) heads.now) }
    ensures { IfOk result (λ shown. MatchOption shown
        ((views : List ℕ) → ¬ IsAcceptedDefault asked.now.atoms.now
        (map item_of items.now ++ map Fact (map (λ f. formula_of f.now) heads.now))
        (asked_beliefs asked.now) views (verdicts_of cert.now))
        (λ views. IsAcceptedDefault asked.now.atoms.now
        (map item_of items.now ++ map Fact (map (λ f. formula_of f.now) heads.now))
        (asked_beliefs asked.now) views.items (verdicts_of cert.now))) }
{
    let defaults = defaults_of(alloc, items)?;
    let facts = facts_with(alloc, items, heads)?;
    let mut known = clauses_of(alloc, asked, &facts)?;
    let question = Asked {
        atoms: asked.atoms,
        beliefs: asked.beliefs,
    };
    let theory = AskedTheory {
        asked: &question,
        items,
        heads,
        defaults: &defaults,
    };
    judge_all(alloc, &mut known, &theory, &cert.sets)
}
