//! The facts of a theory, and the conclusions of its defaults.

ghost use Rattle.std.specs.Prelude.{◌≡◌, ◌≤◌, ◌++◌, length, map, IfOk, OnOk, OnErr};
ghost use Rattle.mcs_system.specs.Seen.{formula_of, item_of};
ghost use Rattle.mcs_cnf.specs.ClauseLists.{with_formulas, clause_list, AreOver};
ghost use Rattle.mcs_evidence.specs.Defaults.{AreOverItems, facts_of};
ghost use Rattle.mcs_grounding.specs.Asked.{theory_names, theory_defaults};
ghost use Rattle.mcs_grounding.specs.Theories.{consequents};

use mcs_base::{Memory, Vars};
use mcs_cnf::{push_all, push_formula};
use mcs_grounding::Theory;
use mcs_sat::ClauseBase;
use mcs_system::{Formula, Name, TheoryItem};
use mcs_trace::Cnf;
use std::alloc::Global;

/// Adds the clauses of the facts among the items.
fn push_facts(
    alloc: Global,
    known: &mut Cnf,
    items: &[TheoryItem],
    atoms: &[Name],
) -> Result<(), Memory>
    requires over { AreOverItems atoms.now (map item_of items.now) }
    requires room { length atoms.now ≤ known.old.vars }
    ensures { OnOk result (known.new
        ≡ with_formulas atoms.now known.old (facts_of (map item_of items.now))) }
{
    for item in items {
        match item {
            TheoryItem::Fact(formula) => push_formula(alloc, known, atoms, formula)?,
            TheoryItem::Rule(_) => {}
        }
    }
    Ok(())
}

/// The clauses of the facts among the items, and then of those that are added.
pub(crate) fn facts(
    alloc: Global,
    items: &[TheoryItem],
    added: &[&Formula],
    atoms: &[Name],
) -> Result<Cnf, Memory>
    requires few { length atoms.now ≤ 64 }
    requires items { AreOverItems atoms.now (map item_of items.now) }
    requires added { AreOver atoms.now (map (λ f. formula_of f.now) added.now) }
    ensures { IfOk result (λ known. known ≡ clause_list atoms.now
        (facts_of (map item_of items.now) ++ map (λ f. formula_of f.now) added.now)) }
{
    let mut known = Cnf::new(alloc, atoms.len() as u64);
    push_facts(alloc, &mut known, items, atoms)?;
    push_all(alloc, &mut known, added, atoms)?;
    Ok(known)
}

/// Adds the clauses of the consequents of the defaults of the set.
pub(crate) fn push_consequents(
    alloc: Global,
    known: &mut Cnf,
    theory: &Theory<'_>,
    set: Vars,
) -> Result<(), Memory>
    requires room { length (theory_names theory.now) ≤ known.old.vars }
    ensures { OnOk result (known.new ≡ with_formulas (theory_names theory.now) known.old
        (consequents (theory_defaults theory.now) set)) }
{
    let defaults = theory.defaults;
    for (index, default) in defaults.iter().enumerate() {
        if set.has(index as u32) {
            push_formula(alloc, known, theory.asked.atoms, &default.conclusion)?;
        }
    }
    Ok(())
}

/// The same where the clauses are ready for searches. Where memory runs out, they are as before.
pub(crate) fn append_consequents(
    alloc: Global,
    known: &mut ClauseBase,
    theory: &Theory<'_>,
    set: Vars,
) -> Result<(), Memory>
    requires room { length (theory_names theory.now) ≤ known.old.vars }
    ensures ok { OnOk result (known.new ≡ with_formulas (theory_names theory.now) known.old
        (consequents (theory_defaults theory.now) set)) }
    ensures err { OnErr result (known.new ≡ known.old) }
{
    let mut more = Cnf::new(alloc, known.vars());
    push_consequents(alloc, &mut more, theory, set)?;
    let added = known.append(&more);
    drop(more);
    added
}

/// The clauses of the facts among the items, ready for many searches.
pub(crate) fn facts_base(
    alloc: Global,
    items: &[TheoryItem],
    atoms: &[Name],
) -> Result<ClauseBase, Memory>
    requires few { length atoms.now ≤ 64 }
    requires items { AreOverItems atoms.now (map item_of items.now) }
    ensures { IfOk result (λ known. known
        ≡ clause_list atoms.now (facts_of (map item_of items.now))) }
{
    let mut cnf = Cnf::new(alloc, atoms.len() as u64);
    push_facts(alloc, &mut cnf, items, atoms)?;
    let made = ClauseBase::of(alloc, &cnf);
    drop(cnf);
    let mut known = made?;
    match known.settle() {
        Ok(()) => Ok(known),
        Err(error) => {
            drop(known);
            Err(error)
        }
    }
}
