//! The clauses of formulas of a program: that a smaller set satisfies the reduct by a model, that a
//! set does not undo a model, and that the state is another one.

ghost use Rattle.std.specs.Prelude.{◌≡◌, ◌≤◌, ◌++◌, List, [], ◌∷◌, None, Some, cond, length, map};
ghost use Rattle.std.specs.Prelude.{filter, IfOk, OnErr, OnOk};
ghost use Rattle.mcs_system.specs.Logic.{reduct};
ghost use Rattle.mcs_system.specs.Plain as plain;
ghost use Rattle.mcs_system.specs.Seen.{rule_of};
ghost use Rattle.mcs_trace.specs.Clauses.{ClauseList};
ghost use Rattle.mcs_cnf.specs.ClauseLists.{with_formulas, clause_list};
ghost use Rattle.mcs_evidence.specs.Added.{CanAdd, AddsDenial, AddsFormulas, AddsOccurrence};
ghost use Rattle.mcs_evidence.specs.Added.{AddsToConjunction};
ghost use Rattle.mcs_evidence.specs.Programs.{atoms_as, negated_atoms, conjunction, disjunction};
ghost use Rattle.mcs_evidence.specs.Programs.{is_broken_by, positive_formula, smaller_formulas};
ghost use Rattle.mcs_evidence.specs.Programs.{beside_formula, other_formula, rest_formulas};
ghost use Rattle.mcs_evidence.specs.Programs.{AreOverRules};
ghost use Rattle.mcs_evidence.specs.Pushing.{AreNamesOf, IsListVariable, IsVariablePart};
ghost use Rattle.mcs_evidence.specs.Pushing.{HasOccurrences, HasConjunction};

use crate::places::{is_broken, names_at, names_beside, some_among};
use crate::pushing::{
    all_of, atom_of, join, join_atoms, push_either, push_negated, push_rule, push_rules,
};
use mcs_base::{Memory, Vars};
use mcs_cnf::{push_not, push_unit};
use mcs_system::{Name, ProgRule};
use mcs_trace::Cnf;
use std::alloc::Global;

/// Adds the clauses of the rules of the reduct by the atoms of the model.
fn push_reduct(
    alloc: Global,
    cnf: &mut Cnf,
    atoms: &[Name],
    rules: &[ProgRule],
    model: &[Name],
) -> Result<(), Memory>
    requires { CanAdd atoms.now cnf.old (AreOverRules atoms.now (map rule_of rules.now)) }
    ensures { OnOk result (AddsFormulas atoms.now (map positive_formula (reduct model.now (map
        rule_of rules.now))) cnf.old cnf.new) }
{
    for rule in rules {
        if !some_among(&rule.neg, model) {
            push_rule(alloc, cnf, atoms, &rule.head, &rule.pos, &[])?;
        }
    }
    Ok(())
}

/// Adds the clauses that each of the names is false.
fn push_negations(
    alloc: Global,
    cnf: &mut Cnf,
    atoms: &[Name],
    names: &[Name],
) -> Result<(), Memory>
    requires { CanAdd atoms.now cnf.old (AreNamesOf atoms.now names.now) }
    ensures { OnOk result (AddsFormulas atoms.now (negated_atoms names.now) cnf.old cnf.new) }
{
    for name in names {
        let n = push_negated(alloc, cnf, atoms, name)?;
        push_unit(alloc, cnf, n)?;
    }
    Ok(())
}

/// Adds the clauses that a whole conjunction is false. `all` is its number, if it has parts.
fn push_not_all(alloc: Global, cnf: &mut Cnf, all: Option<u64>) -> Result<(), Memory>
    requires { IsVariablePart cnf.old all }
    ensures { OnOk result (AddsDenial cnf.old cnf.new all) }
{
    let x = all_of(alloc, cnf, all)?;
    let n = push_not(alloc, cnf, x)?;
    push_unit(alloc, cnf, n)
}

/// The clauses that a proper subset of the model satisfies the reduct by it. They are unsatisfiable
/// exactly if no such subset exists.
pub fn smaller_clauses(
    alloc: Global,
    atoms: &[Name],
    rules: &[ProgRule],
    model: Vars,
) -> Result<Cnf, Memory>
    requires few { length atoms.now ≤ 64 }
    requires rules { AreOverRules atoms.now (map rule_of rules.now) }
    ensures { IfOk result (λ f. f
        ≡ clause_list atoms.now (smaller_formulas atoms.now (map rule_of rules.now) model)) }
{
    let within = names_at(alloc, atoms, model)?;
    let beside = names_beside(alloc, atoms, model)?;
    let mut cnf = Cnf::new(alloc, atoms.len() as u64);
    push_reduct(alloc, &mut cnf, atoms, rules, &within)?;
    push_negations(alloc, &mut cnf, atoms, &beside)?;
    let all = join_atoms(alloc, &mut cnf, atoms, &within, None)?;
    push_not_all(alloc, &mut cnf, all)?;
    Ok(cnf)
}

/// Adds to a conjunction, for each rule that the names break, the disjunction of its negative body
/// atoms. Returns the number of the conjunction, if it has parts.
fn join_broken(
    alloc: Global,
    cnf: &mut Cnf,
    atoms: &[Name],
    rules: &[ProgRule],
    names: &[Name],
    mut all: Option<u64>,
) -> Result<Option<u64>, Memory>
    requires can { CanAdd atoms.now cnf.old (AreOverRules atoms.now (map rule_of rules.now)) }
    requires part { IsVariablePart cnf.old all }
    ensures { IfOk result (AddsToConjunction atoms.now (map (λ (r : plain.ProgramRule). disjunction
        (atoms_as r.neg)) (filter (is_broken_by names.now) (map rule_of rules.now))) cnf.old
        cnf.new all) }
{
    for rule in rules {
        if is_broken(names, rule) {
            let x = push_either(alloc, cnf, atoms, &rule.neg)?;
            let n = join(alloc, cnf, all, x)?;
            all = Some(n);
        }
    }
    Ok(all)
}

/// Appends to a list of its own the clauses of the formula that is false if the atoms at these
/// places are a proper subset of a model and satisfy the reduct by it.
fn push_one_beside(
    alloc: Global,
    cnf: &mut Cnf,
    atoms: &[Name],
    rules: &[ProgRule],
    less: Vars,
) -> Result<(), Memory>
    requires few { length atoms.now ≤ 64 }
    requires can { CanAdd atoms.now cnf.old (AreOverRules atoms.now (map rule_of rules.now)) }
    ensures { OnOk result (AddsFormulas atoms.now (beside_formula atoms.now (map rule_of rules.now)
        less ∷ []) cnf.old cnf.new) }
{
    let within = names_at(alloc, atoms, less)?;
    let beside = names_beside(alloc, atoms, less)?;
    let all = join_atoms(alloc, cnf, atoms, &within, None)?;
    let x = push_either(alloc, cnf, atoms, &beside)?;
    let all = join(alloc, cnf, all, x)?;
    let all = join_broken(alloc, cnf, atoms, rules, &within, Some(all))?;
    push_not_all(alloc, cnf, all)
}

/// Adds the clauses of the formula that is false if the atoms at these places are a proper subset
/// of a model and satisfy the reduct by it. If memory runs out, the list is as before.
pub fn push_beside(
    alloc: Global,
    cnf: &mut Cnf,
    atoms: &[Name],
    rules: &[ProgRule],
    less: Vars,
) -> Result<(), Memory>
    requires few { length atoms.now ≤ 64 }
    requires rules { AreOverRules atoms.now (map rule_of rules.now) }
    requires room { length atoms.now ≤ cnf.old.vars }
    ensures grows { IfOk result (λ _. cnf.old.vars ≤ cnf.new.vars) }
    ensures pushed { IfOk result (λ _. cnf.new ≡ with_formulas atoms.now cnf.old
        (beside_formula atoms.now (map rule_of rules.now) less ∷ [])) }
    ensures err { OnErr result (cnf.new ≡ cnf.old) }
{
    let mut own = Cnf::new(alloc, cnf.vars());
    push_one_beside(alloc, &mut own, atoms, rules, less)?;
    cnf.append(own)
}

/// Adds an occurrence of the belief if `holds`, and otherwise of its negation. Returns its number.
fn push_literal(
    alloc: Global,
    cnf: &mut Cnf,
    atoms: &[Name],
    belief: &Name,
    holds: bool,
) -> Result<u64, Memory>
    requires { CanAdd atoms.now cnf.old (AreNamesOf atoms.now (belief.now ∷ [])) }
    ensures { IfOk result (AddsOccurrence atoms.now (cond holds (plain.Atom belief.now) (plain.Not
        (plain.Atom belief.now))) cnf.old cnf.new) }
{
    if holds {
        Ok(atom_of(cnf, atoms, belief))
    } else {
        push_negated(alloc, cnf, atoms, belief)
    }
}

/// Adds the clauses of the formula that is false if exactly the beliefs at these places are true.
pub(crate) fn push_other(
    alloc: Global,
    cnf: &mut Cnf,
    atoms: &[Name],
    beliefs: &[&Name],
    state: Vars,
) -> Result<(), Memory>
    requires few { length beliefs.now ≤ 64 }
    requires can { CanAdd atoms.now cnf.old (AreNamesOf atoms.now (map (λ b. b.now) beliefs.now)) }
    ensures { OnOk result (AddsFormulas atoms.now (other_formula (map plain.Atom (map (λ b. b.now)
        beliefs.now)) state ∷ []) cnf.old cnf.new) }
{
    let mut all = None;
    for (k, belief) in beliefs.iter().enumerate() {
        let x = push_literal(alloc, cnf, atoms, belief, state.has(k as u32))?;
        let n = join(alloc, cnf, all, x)?;
        all = Some(n);
    }
    push_not_all(alloc, cnf, all)
}

/// For each of the smaller sets, in their order, adds the clauses that it does not undo the model.
fn push_besides(
    alloc: Global,
    cnf: &mut Cnf,
    atoms: &[Name],
    rules: &[ProgRule],
    smaller: &[Vars],
) -> Result<(), Memory>
    requires few { length atoms.now ≤ 64 }
    requires can { CanAdd atoms.now cnf.old (AreOverRules atoms.now (map rule_of rules.now)) }
    ensures { OnOk result (AddsFormulas atoms.now (map (beside_formula atoms.now (map rule_of
        rules.now)) smaller.now) cnf.old cnf.new) }
{
    for less in smaller {
        push_one_beside(alloc, cnf, atoms, rules, *less)?;
    }
    Ok(())
}

/// Adds the clauses that the state is none of these.
fn push_others(
    alloc: Global,
    cnf: &mut Cnf,
    atoms: &[Name],
    beliefs: &[&Name],
    states: &[Vars],
) -> Result<(), Memory>
    requires few { length beliefs.now ≤ 64 }
    requires can { CanAdd atoms.now cnf.old (AreNamesOf atoms.now (map (λ b. b.now) beliefs.now)) }
    ensures { OnOk result (AddsFormulas atoms.now (map (other_formula (map plain.Atom (map (λ b.
        b.now) beliefs.now))) states.now) cnf.old cnf.new) }
{
    for state in states {
        push_other(alloc, cnf, atoms, beliefs, *state)?;
    }
    Ok(())
}

/// The clauses of a model that has none of these states and that none of the smaller sets undoes.
pub fn rest_clauses(
    alloc: Global,
    atoms: &[Name],
    rules: &[ProgRule],
    beliefs: &[&Name],
    smaller: &[Vars],
    states: &[Vars],
) -> Result<Cnf, Memory>
    requires few { length atoms.now ≤ 64 }
    requires few_beliefs { length beliefs.now ≤ 64 }
    requires rules { AreOverRules atoms.now (map rule_of rules.now) }
    requires beliefs { AreNamesOf atoms.now (map (λ b. b.now) beliefs.now) }
    ensures { IfOk result (λ f. f ≡ clause_list atoms.now
        (rest_formulas atoms.now (map rule_of rules.now)
        (map plain.Atom (map (λ b. b.now) beliefs.now)) smaller.now states.now)) }
{
    let mut cnf = Cnf::new(alloc, atoms.len() as u64);
    push_rules(alloc, &mut cnf, atoms, rules)?;
    push_besides(alloc, &mut cnf, atoms, rules, smaller)?;
    push_others(alloc, &mut cnf, atoms, beliefs, states)?;
    Ok(cnf)
}
