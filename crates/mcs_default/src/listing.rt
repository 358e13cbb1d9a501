//! The extensions of a default theory.

ghost use Rattle.std.specs.Prelude.{◌≡◌, ◌≤◌, ◌++◌, ◌^◌, List, false, length, map, IfOk, OnOk};
ghost use Rattle.mcs_sets.specs.Orders.{StateBefore};
ghost use Rattle.mcs_base.specs.Listings.{IsListing};
ghost use Rattle.mcs_system.specs.Faults.{has_twins};
ghost use Rattle.mcs_system.specs.Logic.{with_heads};
ghost use Rattle.mcs_system.specs.Plain.{DefaultTheory, Fact};
ghost use Rattle.mcs_system.specs.Plain as plain;
ghost use Rattle.mcs_system.specs.Seen.{formula_of, item_of};
ghost use Rattle.mcs_system.specs.Views.{IsAcceptedView};
ghost use Rattle.mcs_cnf.specs.ClauseLists.{AreOver, clause_list};
ghost use Rattle.mcs_classical.specs.Given.{given_names, given_beliefs};
ghost use Rattle.mcs_evidence.specs.Defaults.{AreOverItems, IsAcceptedDefault, facts_of};
ghost use Rattle.mcs_evidence.specs.Defaults.{defaults_of, verdicts_of};
ghost use Rattle.mcs_grounding.specs.Asked.{theory_names, theory_beliefs, theory_defaults};
ghost use Rattle.mcs_grounding.specs.Asked.{AreItemsOf};
ghost use Rattle.mcs_default.specs.Asked.{IsSameTheory, IsSearchOf};
ghost use Rattle.mcs_default.specs.Searches.{CanBeAsked, AreRightFindings};
ghost use Rattle.mcs_default.specs.Told.{with_view};

use crate::findings::Findings;
use crate::known::{Node, known_of};
use crate::search::add_views;
use crate::searching::Search;
use crate::theory::facts;
use crate::verdict::judge;
use mcs_asked::Asked;
use mcs_base::{Memory, Vars, list_states};
use mcs_classical::{Given, add_formulas};
use mcs_evidence::defaults_of;
use mcs_grounding::Theory;
use mcs_system::{Formula, Name, TheoryItem};
use mcs_trace::{Cnf, DefaultCert};
use std::alloc::Global;
use std::mem;

/// How many sets there are of so many defaults.
fn set_count(defaults: usize) -> u64
    requires { defaults ≤ 10 }
    ensures { result ≡ 2 ^ defaults }
{
    1 << defaults
}

/// Adds the view, if there is one.
fn push_view(views: &mut Vec<Vars>, view: Option<Vars>) -> Result<(), Memory>
    ensures { OnOk result (views.new.items ≡ with_view views.old.items view) }
{
    if let Some(view) = view {
        views.push(view)?;
    }
    Ok(())
}

/// The views of the extensions, with the verdicts on all sets of the defaults. The clauses of the
/// facts are `known`.
fn judge_all(
    alloc: Global,
    known: &mut Cnf,
    theory: &Theory<'_>,
) -> Result<(Vec<Vars>, DefaultCert), Memory>
    requires room { length (theory_names theory.now) ≤ known.old.vars }
    ensures accepted { IfOk result (λ r. (items : List plain.Item)
        → AreItemsOf theory.now known.old items
        → IsAcceptedDefault (theory_names theory.now) items (theory_beliefs theory.now) r.0.items
        (verdicts_of r.1)) }
{
    let mut views = Vec::new(alloc);
    let mut sets = Vec::new(alloc);
    for number in 0..set_count(theory.defaults.len()) {
        let set = Vars::numbered(number);
        let judged = judge(alloc, known, theory, set)?;
        sets.push(judged.verdict)?;
        push_view(&mut views, judged.view)?;
    }
    list_states(&mut views);
    Ok((views, DefaultCert { sets }))
}

/// The views of the extensions alone, by a search, beside what was found before.
fn list_all(alloc: Global, search: &mut Search<'_>) -> Result<Vec<Vars>, Memory>
    ensures kept { IsSameTheory search.old search.new }
    ensures exact { IfOk result (λ views. (items : List plain.Item) → IsSearchOf items search.old
        → IsListing (IsAcceptedView (DefaultTheory items) (theory_beliefs search.old.theory.now))
        StateBefore views.items) }
{
    let defaults = search.theory.defaults;
    let taken = known_of(search, Vars::empty());
    let sets = set_count(defaults.len());
    let all = known_of(search, Vars::numbered(sets - 1));
    let mut views = Vec::new(alloc);
    add_views(alloc, search, Node { taken, all }, &mut views)?;
    list_states(&mut views);
    Ok(views)
}

/// The same for a theory, with the clauses of its facts and what was found, which are lent to the
/// search.
fn list_lent(
    alloc: Global,
    findings: &mut Findings,
    theory: &Theory<'_>,
) -> Result<Vec<Vars>, Memory>
    requires ready { CanBeAsked (theory_names theory.now)
        (theory_defaults theory.now) findings.old }
    ensures kept { findings.new.facts ≡ findings.old.facts }
    ensures ready { CanBeAsked (theory_names theory.now) (theory_defaults theory.now) findings.new }
    ensures exact { IfOk result (λ views. (items : List plain.Item)
        → AreItemsOf theory.now findings.old.facts items
        → IsListing (IsAcceptedView (DefaultTheory items) (theory_beliefs theory.now)) StateBefore
        views.items) }
{
    let none = Findings::none(alloc)?;
    let mut search = Search {
        theory,
        findings: mem::replace(findings, none),
    };
    let views = list_all(alloc, &mut search);
    let Search {
        findings: found,
        ..
    } = search;
    drop(mem::replace(findings, found));
    views
}

/// The views of the extensions of a default theory to which facts are added, each once, in the
/// order of states. The view of an extension is the set of the numbers, from 0, of the beliefs that
/// it has. With them comes a verdict on each set of the defaults, which shows that these views are
/// all. All atoms are among these, at most 64; there are at most 64 beliefs and 10 defaults. Where
/// a justification has a number from 2^32 on, which no certificate tells, the answer is want of
/// memory.
pub fn extensions(
    alloc: Global,
    items: &[TheoryItem],
    added: &[Formula],
    beliefs: &[Formula],
    atoms: &[Name],
) -> Result<(Vec<Vars>, DefaultCert), Memory>
    requires few { length atoms.now ≤ 64 }
    requires few_beliefs { length beliefs.now ≤ 64 }
    requires few_defaults { length (defaults_of (map item_of items.now)) ≤ 10 }
    requires different { has_twins atoms.now ≡ false }
    requires items { AreOverItems atoms.now (map item_of items.now) }
    requires added { AreOver atoms.now (map formula_of added.now) }
    requires beliefs { AreOver atoms.now (map formula_of beliefs.now) }
    ensures exact { IfOk result (λ r. IsListing (IsAcceptedView
        (with_heads (DefaultTheory (map item_of items.now)) (map formula_of added.now))
        (map formula_of beliefs.now)) StateBefore r.0.items) }
    ensures accepted { IfOk result (λ r. IsAcceptedDefault atoms.now
        (map item_of items.now ++ map Fact (map formula_of added.now))
        (map formula_of beliefs.now) r.0.items (verdicts_of r.1)) }
{
    let lent_added: Vec<&Formula> = added.iter().collect(alloc)?;
    let lent_beliefs: Vec<&Formula> = beliefs.iter().collect(alloc)?;
    let asked = Asked {
        atoms,
        beliefs: &lent_beliefs,
    };
    let given = Given {
        asked: &asked,
        assumptions: &[],
    };
    extensions_from(alloc, items, &lent_added, &given)
}

/// The same where the added facts and the beliefs are lent one by one. What may be assumed plays no
/// part.
pub fn extensions_from(
    alloc: Global,
    items: &[TheoryItem],
    added: &[&Formula],
    given: &Given<'_>,
) -> Result<(Vec<Vars>, DefaultCert), Memory>
    requires few_defaults { length (defaults_of (map item_of items.now)) ≤ 10 }
    requires items { AreOverItems (given_names given.now) (map item_of items.now) }
    requires added { AreOver (given_names given.now) (map (λ f. formula_of f.now) added.now) }
    ensures exact { IfOk result (λ r. IsListing (IsAcceptedView
        (with_heads (DefaultTheory (map item_of items.now))
        (map (λ f. formula_of f.now) added.now)) (given_beliefs given.now)) StateBefore r.0.items) }
    ensures accepted { IfOk result (λ r. IsAcceptedDefault (given_names given.now)
        (map item_of items.now ++ map Fact (map (λ f. formula_of f.now) added.now))
        (given_beliefs given.now) r.0.items (verdicts_of r.1)) }
{
    let defaults = defaults_of(alloc, items)?;
    let mut known = facts(alloc, items, added, given.asked.atoms)?;
    let asked = Asked {
        atoms: given.asked.atoms,
        beliefs: given.asked.beliefs,
    };
    let theory = Theory {
        asked: &asked,
        defaults: &defaults,
    };
    judge_all(alloc, &mut known, &theory)
}

/// The views of the extensions of the theory with the added facts, by a search, beside what was
/// found before. The clauses of the facts of the items are given.
pub(crate) fn list_with(
    alloc: Global,
    findings: &mut Findings,
    items: &[TheoryItem],
    added: &[&Formula],
    given: &Given<'_>,
) -> Result<Vec<Vars>, Memory>
    requires few_defaults { length (defaults_of (map item_of items.now)) ≤ 10 }
    requires items { AreOverItems (given_names given.now) (map item_of items.now) }
    requires added { AreOver (given_names given.now) (map (λ f. formula_of f.now) added.now) }
    requires facts { findings.old.facts
        ≡ clause_list (given_names given.now) (facts_of (map item_of items.now)) }
    requires right { AreRightFindings (given_names given.now)
        (map item_of items.now ++ map Fact (map (λ f. formula_of f.now) added.now)) findings.old }
    ensures kept { findings.new.facts ≡ findings.old.facts }
    ensures right { OnOk result (AreRightFindings (given_names given.now)
        (map item_of items.now ++ map Fact (map (λ f. formula_of f.now) added.now)) findings.new) }
    ensures exact { IfOk result (λ views. IsListing
        (IsAcceptedView (with_heads (DefaultTheory (map item_of items.now))
        (map (λ f. formula_of f.now) added.now)) (given_beliefs
        given.now)) StateBefore views.items) }
{
    let defaults = defaults_of(alloc, items)?;
    let vars = findings.facts.vars();
    let count = findings.facts.count();
    add_formulas(alloc, &mut findings.facts, added, given.asked.atoms)?;
    let asked = Asked {
        atoms: given.asked.atoms,
        beliefs: given.asked.beliefs,
    };
    let theory = Theory {
        asked: &asked,
        defaults: &defaults,
    };
    let views = list_lent(alloc, findings, &theory);
    findings.facts.cut(vars, count);
    views
}
