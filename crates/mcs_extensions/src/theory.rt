//! The facts of a theory, the defaults in a set, and the formulas that the set generates.

ghost use Rattle.std.specs.Prelude.{◌≡◌, ◌≤◌, ◌++◌, length, map, IfOk, OnOk};
ghost use Rattle.mcs_system.specs.Plain.{Not};
ghost use Rattle.mcs_system.specs.Seen.{formula_of, default_of, item_of};
ghost use Rattle.mcs_cnf.specs.ClauseLists.{with_formulas};
ghost use Rattle.mcs_evidence.specs.Defaults.{facts_of, defaults_at, defaults_in, generated};
ghost use Rattle.mcs_evidence.specs.Defaults.{negated_justs};
ghost use Rattle.mcs_asked.specs.Questions.{theory_names, theory_items};
ghost use Rattle.mcs_system.specs.Plain as plain;

use mcs_asked::AskedTheory;
use mcs_base::{Memory, Vars};
use mcs_cnf::push_all;
use mcs_system::{Default, Formula, TheoryItem};
use mcs_trace::Cnf;
use std::alloc::Global;

/// The facts of the items, in their order.
fn facts_of(alloc: Global, items: &[TheoryItem]) -> Result<Vec<&Formula>, Memory>
    ensures { IfOk result (λ fs. map (λ f. formula_of f.now) fs.items
        ≡ facts_of (map item_of items.now)) }
{
    let mut facts = Vec::new(alloc);
    for item in items {
        if let TheoryItem::Fact(formula) = item {
            facts.push(formula)?;
        }
    }
    Ok(facts)
}

/// The facts of the items, followed by those that are added.
pub fn facts_with<'f>(
    alloc: Global,
    items: &'f [TheoryItem],
    added: &[&'f Formula],
) -> Result<Vec<&'f Formula>, Memory>
    ensures { IfOk result (λ all. map (λ f. formula_of f.now) all.items
        ≡ facts_of (map item_of items.now) ++ map (λ f. formula_of f.now) added.now) }
{
    let mut all = facts_of(alloc, items)?;
    all.extend_from_slice(added)?;
    Ok(all)
}

/// The defaults of the set, ascending.
pub fn chosen<'f>(
    alloc: Global,
    defaults: &[&'f Default],
    set: Vars,
) -> Result<Vec<&'f Default>, Memory>
    requires few { length defaults.now ≤ 64 }
    ensures { IfOk result (λ ds. map (λ d. default_of d.now) ds.items
        ≡ defaults_at 0 (map (λ d. default_of d.now) defaults.now) set) }
{
    let mut chosen = Vec::new(alloc);
    for (index, default) in defaults.iter().enumerate() {
        if set.has(index as u32) {
            chosen.push(*default)?;
        }
    }
    Ok(chosen)
}

/// The prerequisites of the defaults.
pub fn prerequisites<'f>(
    alloc: Global,
    defaults: &[&'f Default],
) -> Result<Vec<&'f Formula>, Memory>
    ensures { IfOk result (λ fs. map (λ f. formula_of f.now) fs.items
        ≡ map (λ (d : plain.Default). d.pre) (map (λ d. default_of d.now) defaults.now)) }
{
    let mut formulas = Vec::new(alloc);
    for default in defaults {
        formulas.push(&default.pre)?;
    }
    Ok(formulas)
}

/// The consequents of the defaults.
fn consequents<'f>(alloc: Global, defaults: &[&'f Default]) -> Result<Vec<&'f Formula>, Memory>
    ensures { IfOk result (λ fs. map (λ f. formula_of f.now) fs.items
        ≡ map (λ (d : plain.Default). d.conclusion) (map (λ d. default_of d.now) defaults.now)) }
{
    let mut formulas = Vec::new(alloc);
    for default in defaults {
        formulas.push(&default.conclusion)?;
    }
    Ok(formulas)
}

/// The negation of the formula.
pub fn negated(alloc: Global, formula: &Formula) -> Result<Formula, Memory>
    ensures { IfOk result (λ f. formula_of f ≡ Not (formula_of formula.now)) }
{
    let copy = formula.copy(alloc)?;
    Ok(Formula::Not(Box::new(alloc, copy)?))
}

/// Appends the negations of the formulas.
fn push_negations(
    alloc: Global,
    negations: &mut Vec<Formula>,
    formulas: &[Formula],
) -> Result<(), Memory>
    ensures { IfOk result (λ _. map formula_of negations.new.items
        ≡ map formula_of negations.old.items ++ map Not (map formula_of formulas.now)) }
{
    for formula in formulas {
        negations.push(negated(alloc, formula)?)?;
    }
    Ok(())
}

/// The negations of the justifications of the defaults, in order.
pub fn negations(alloc: Global, defaults: &[&Default]) -> Result<Vec<Formula>, Memory>
    ensures { IfOk result (λ fs. map formula_of fs.items
        ≡ negated_justs (map (λ d. default_of d.now) defaults.now)) }
{
    let mut negations = Vec::new(alloc);
    for default in defaults {
        push_negations(alloc, &mut negations, &default.justs)?;
    }
    Ok(negations)
}

/// The consequents of the defaults of the set.
fn added<'t>(alloc: Global, theory: &AskedTheory<'t>, set: Vars) -> Result<Vec<&'t Formula>, Memory>
    ensures { IfOk result (λ fs. map (λ f. formula_of f.now) fs.items
        ≡ map (λ (d : plain.Default). d.conclusion) (defaults_in (theory_items theory.now) set)) }
{
    let inside = chosen(alloc, theory.defaults, set)?;
    consequents(alloc, &inside)
}

/// The formulas that the set generates: the facts, and then the consequents of its defaults.
pub fn generated<'t>(
    alloc: Global,
    theory: &AskedTheory<'t>,
    set: Vars,
) -> Result<Vec<&'t Formula>, Memory>
    ensures { IfOk result (λ fs. map (λ f. formula_of f.now) fs.items
        ≡ generated (theory_items theory.now) set) }
{
    let mut formulas = facts_with(alloc, theory.items, theory.heads)?;
    let more = added(alloc, theory, set)?;
    formulas.extend_from_slice(&more)?;
    Ok(formulas)
}

/// Adds the clauses of the consequents of the set's defaults.
pub fn push_added(
    alloc: Global,
    known: &mut Cnf,
    theory: &AskedTheory<'_>,
    set: Vars,
) -> Result<(), Memory>
    requires { length (theory_names theory.now) ≤ known.old.vars }
    ensures { OnOk result (known.new ≡ with_formulas (theory_names theory.now) known.old
        (map (λ (d : plain.Default). d.conclusion) (defaults_in (theory_items theory.now) set))) }
{
    let more = added(alloc, theory, set)?;
    push_all(alloc, known, &more, theory.asked.atoms)
}
