//! Whether defaults are supported or allowed by a set of defaults.

ghost use Rattle.std.specs.Prelude.{◌≡◌, ◌≤◌, ◌<◌, ◌++◌, ◌↔◌, List, length, map, IsTrue, IfOk};
ghost use Rattle.std.specs.List.{AllByRecursion};
ghost use Rattle.mcs_system.specs.Logic.{Entails};
ghost use Rattle.mcs_system.specs.Plain as plain;
ghost use Rattle.mcs_system.specs.Seen.{formula_of};
ghost use Rattle.mcs_cnf.specs.ClauseLists.{IsOver, AreOver};
ghost use Rattle.mcs_classical.specs.Models.{IsCounterexample};
ghost use Rattle.mcs_evidence.specs.Defaults.{defaults_of, generated};
ghost use Rattle.mcs_evidence.specs.Theories.{IsDefaultAt};
ghost use Rattle.mcs_grounding.specs.Theories.{AreClausesOf, consequents};
ghost use Rattle.mcs_grounding.specs.Asked.{theory_names, theory_defaults};
ghost use Rattle.mcs_default.specs.Asked.{IsSameTheory, IsSearchOf, AnswersSearch};
ghost use Rattle.mcs_default.specs.Searches.{IsAllowedBy, IsConflict};

use crate::findings::{
    Lower, has_conflict, is_allowed, is_blocked, is_consistent, is_denied, is_supported,
    is_unsupported,
};
use crate::models::upper_at;
use crate::searching::Search;
use crate::theory::append_consequents;
use mcs_base::{Memory, Vars};
use mcs_classical::{Given, counterexample_in};
use mcs_grounding::Theory;
use mcs_sat::ClauseBase;
use mcs_system::{Formula, same_formula};
use std::alloc::Global;

/// The places of the atoms that are true where the facts, whose clauses are `known`, and the
/// consequents of the set hold, and the goal does not; `None` exactly where it follows.
fn counterexample(
    alloc: Global,
    known: &mut ClauseBase,
    theory: &Theory<'_>,
    set: Vars,
    goal: &Formula,
) -> Result<Option<Vars>, Memory>
    requires goal { IsOver (theory_names theory.now) (formula_of goal.now) }
    requires room { length (theory_names theory.now) ≤ known.old.vars }
    ensures kept { known.new ≡ known.old }
    ensures exact { IfOk result (λ found. (fs : List plain.Formula)
        → AreClausesOf (theory_names theory.now) fs known.old
        → IsCounterexample (theory_names theory.now)
        (fs ++ consequents (theory_defaults theory.now) set) (formula_of goal.now) found) }
{
    let vars = known.vars();
    let count = known.count();
    append_consequents(alloc, known, theory, set)?;
    let given = Given {
        asked: theory.asked,
        assumptions: &[],
    };
    let found = counterexample_in(alloc, known, goal, &given);
    known.cut(vars, count);
    found
}

/// Whether the goal follows from the facts and the consequents of the set. Where it does not, an
/// assignment shows that: what else this shows is kept.
pub(crate) fn follows(
    alloc: Global,
    search: &mut Search<'_>,
    set: Vars,
    goal: &Formula,
) -> Result<bool, Memory>
    requires goal { IsOver (theory_names search.old.theory.now) (formula_of goal.now) }
    ensures { AnswersSearch search.old search.new result (λ b items.
        IsTrue b ↔ Entails (generated items set) (formula_of goal.now)) }
{
    let theory = search.theory;
    match counterexample(alloc, &mut search.findings.facts, theory, set, goal)? {
        None => Ok(true),
        Some(values) => {
            search.findings.upper.push(upper_at(theory, values))?;
            Ok(false)
        }
    }
}

/// Whether the formula is the consequent of a default of the set, word for word.
fn is_consequent(theory: &Theory<'_>, set: Vars, formula: &Formula) -> bool
    ensures { (items : List plain.Item) → theory_defaults theory.now ≡ defaults_of items
        → IsTrue result → Entails (generated items set) (formula_of formula.now) }
{
    let defaults = theory.defaults;
    for (index, default) in defaults.iter().enumerate() {
        if set.has(index as u32) && same_formula(&default.conclusion, formula) {
            return true;
        }
    }
    false
}

/// Whether the belief follows from the facts and the consequents of the set. It is asked only where
/// neither the set has it as a consequent nor what was found denies it.
pub(crate) fn is_believed(
    alloc: Global,
    search: &mut Search<'_>,
    set: Vars,
    belief: &Formula,
) -> Result<bool, Memory>
    requires belief { IsOver (theory_names search.old.theory.now) (formula_of belief.now) }
    ensures { AnswersSearch search.old search.new result (λ b items.
        IsTrue b ↔ Entails (generated items set) (formula_of belief.now)) }
{
    let theory = search.theory;
    if is_consequent(theory, set, belief) {
        return Ok(true);
    }
    if is_denied(&search.findings.upper, theory.asked.atoms, set, belief) {
        return Ok(false);
    }
    follows(alloc, search, set, belief)
}

/// Whether the negation of the formula follows.
fn refutes(
    alloc: Global,
    search: &mut Search<'_>,
    set: Vars,
    formula: &Formula,
) -> Result<bool, Memory>
    requires over { IsOver (theory_names search.old.theory.now) (formula_of formula.now) }
    ensures { AnswersSearch search.old search.new result (λ b items.
        IsTrue b ↔ Entails (generated items set) (plain.Not (formula_of formula.now))) }
{
    let goal = Formula::Not(Box::new(alloc, formula.copy(alloc)?)?);
    let is_refuted = follows(alloc, search, set, &goal);
    drop(goal);
    is_refuted
}

/// Whether no negation of one of the justifications follows.
fn allows_all(
    alloc: Global,
    search: &mut Search<'_>,
    set: Vars,
    justs: &[Formula],
) -> Result<bool, Memory>
    requires over { AreOver (theory_names search.old.theory.now) (map formula_of justs.now) }
    ensures { AnswersSearch search.old search.new result (λ b items.
        IsTrue b ↔ AllByRecursion (λ j. ¬ Entails (generated items set) (plain.Not j)) (map
        formula_of justs.now)) }
{
    for just in justs {
        if refutes(alloc, search, set, just)? {
            return Ok(false);
        }
    }
    Ok(true)
}

/// Whether the prerequisite of the default at the index follows from the facts and the consequents
/// of the set.
pub(crate) fn supports(
    alloc: Global,
    search: &mut Search<'_>,
    set: Vars,
    index: u32,
) -> Result<bool, Memory>
    requires index { index < length search.old.theory.now.defaults.now }
    ensures { AnswersSearch search.old search.new result (λ b items.
        (d : plain.Default) → IsDefaultAt items index d → IsTrue b ↔ Entails (generated items
        set) d.pre) }
{
    if is_supported(&search.findings.lower, set, index) {
        return Ok(true);
    }
    if is_unsupported(&search.findings.upper, set, index) {
        return Ok(false);
    }
    let defaults = search.theory.defaults;
    let is_supported = follows(alloc, search, set, &defaults[index as usize].pre)?;
    if is_supported {
        search.findings.lower.push(Lower {
            set,
            supported: Vars::one(index),
            blocked: Vars::empty(),
        })?;
    }
    Ok(is_supported)
}

/// Whether everything follows, by asking.
fn entails_all(alloc: Global, search: &mut Search<'_>, set: Vars) -> Result<bool, Memory>
    ensures { AnswersSearch search.old search.new result (λ b items.
        IsTrue b ↔ IsConflict items set) }
{
    let falsity = Formula::False;
    let is_conflict = follows(alloc, search, set, &falsity);
    drop(falsity);
    is_conflict
}

/// The set, by which everything follows, without the default at the index if everything follows all
/// the same. It is asked only where nothing that was found tells that it does not.
fn without_needless(
    alloc: Global,
    search: &mut Search<'_>,
    set: Vars,
    index: u32,
) -> Result<Vars, Memory>
    requires index { index < length search.old.theory.now.defaults.now }
    requires conflict { (items : List plain.Item) → IsSearchOf items search.old
        → IsConflict items set }
    ensures { AnswersSearch search.old search.new result (λ least items. IsConflict items least) }
{
    if !set.has(index) {
        return Ok(set);
    }
    let smaller = set.without(index);
    if is_consistent(&search.findings.upper, smaller) {
        return Ok(set);
    }
    if entails_all(alloc, search, smaller)? {
        return Ok(smaller);
    }
    Ok(set)
}

/// A part of the set by which everything follows, of which nothing more can be left out.
fn least_conflict(alloc: Global, search: &mut Search<'_>, set: Vars) -> Result<Vars, Memory>
    requires conflict { (items : List plain.Item) → IsSearchOf items search.old
        → IsConflict items set }
    ensures { AnswersSearch search.old search.new result (λ least items. IsConflict items least) }
{
    let defaults = search.theory.defaults;
    let mut least = set;
    for index in 0..defaults.len() {
        least = without_needless(alloc, search, least, index as u32)?;
    }
    Ok(least)
}

/// Whether the facts and the consequents of the set contradict each other. Where they do, a least
/// part that does is kept.
fn contradicts(alloc: Global, search: &mut Search<'_>, set: Vars) -> Result<bool, Memory>
    ensures { AnswersSearch search.old search.new result (λ b items.
        IsTrue b ↔ IsConflict items set) }
{
    if has_conflict(&search.findings.conflicts, set) {
        return Ok(true);
    }
    if is_consistent(&search.findings.upper, set) {
        return Ok(false);
    }
    if !entails_all(alloc, search, set)? {
        return Ok(false);
    }
    let least = least_conflict(alloc, search, set)?;
    search.findings.conflicts.push(least)?;
    Ok(true)
}

/// Whether no negation of a justification of the default at the index follows, by asking where it
/// is not known.
fn allows_by_asking(
    alloc: Global,
    search: &mut Search<'_>,
    set: Vars,
    index: u32,
) -> Result<bool, Memory>
    requires index { index < length search.old.theory.now.defaults.now }
    ensures { AnswersSearch search.old search.new result (λ b items.
        (d : plain.Default) → IsDefaultAt items index d → IsTrue b ↔ IsAllowedBy (generated
        items set) d) }
{
    if is_allowed(&search.findings.upper, set, index) {
        return Ok(true);
    }
    if is_blocked(&search.findings.lower, set, index) {
        return Ok(false);
    }
    let defaults = search.theory.defaults;
    let is_allowed = allows_all(alloc, search, set, &defaults[index as usize].justs)?;
    if !is_allowed {
        search.findings.lower.push(Lower {
            set,
            supported: Vars::empty(),
            blocked: Vars::one(index),
        })?;
    }
    Ok(is_allowed)
}

/// Whether no negation of a justification of the default at the index follows from the facts and
/// the consequents of the set.
pub(crate) fn allows(
    alloc: Global,
    search: &mut Search<'_>,
    set: Vars,
    index: u32,
) -> Result<bool, Memory>
    requires index { index < length search.old.theory.now.defaults.now }
    ensures { AnswersSearch search.old search.new result (λ b items.
        (d : plain.Default) → IsDefaultAt items index d → IsTrue b ↔ IsAllowedBy (generated
        items set) d) }
{
    if is_allowed(&search.findings.upper, set, index) {
        return Ok(true);
    }
    let defaults = search.theory.defaults;
    if contradicts(alloc, search, set)? {
        return Ok(defaults[index as usize].justs.as_slice().is_empty());
    }
    allows_by_asking(alloc, search, set, index)
}
