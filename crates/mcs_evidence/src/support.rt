//! The clauses of loop formulas: if one of a set of atoms is true, the set has external support.

ghost use Rattle.std.specs.Prelude.{◌≡◌, ◌≤◌, [], ◌∷◌, length, map, filter, IfOk, OnErr, OnOk};
ghost use Rattle.mcs_system.specs.Plain as plain;
ghost use Rattle.mcs_system.specs.Seen.{rule_of};
ghost use Rattle.mcs_cnf.specs.ClauseLists.{with_formulas};
ghost use Rattle.mcs_evidence.specs.Added.{CanAdd, AddsFormulas, AddsOccurrence};
ghost use Rattle.mcs_evidence.specs.Programs.{disjunction, AreOverRules, IsOverRule};
ghost use Rattle.mcs_evidence.specs.Pushing.{AreNamesOf, IsListVariable, HasOccurrences};
ghost use Rattle.mcs_evidence.specs.Supports.{may_support, outside_formula, support_formula};

use crate::places::{names_apart, some_among};
use crate::pushing::{all_of, any_of, join_atoms, join_either, join_negated, push_either};
use mcs_base::Memory;
use mcs_cnf::{push_implies, push_unit};
use mcs_system::{Name, ProgRule};
use mcs_trace::Cnf;
use std::alloc::Global;

/// Whether a head atom of the rule is in the set, and no positive body atom is.
fn may_support(set: &[Name], rule: &ProgRule) -> bool
    ensures { result ≡ may_support set.now (rule_of rule.now) }
{
    some_among(&rule.head, set) && !some_among(&rule.pos, set)
}

/// Adds the formula that the body of the rule holds and no head atom outside the set is true.
/// Returns its number.
fn push_outside(
    alloc: Global,
    cnf: &mut Cnf,
    atoms: &[Name],
    rule: &ProgRule,
    set: &[Name],
) -> Result<u64, Memory>
    requires { CanAdd atoms.now cnf.old (IsOverRule atoms.now (rule_of rule.now)) }
    ensures { IfOk result (AddsOccurrence atoms.now (outside_formula set.now (rule_of rule.now))
        cnf.old cnf.new) }
{
    let beside = names_apart(alloc, &rule.head, set)?;
    let body = join_atoms(alloc, cnf, atoms, &rule.pos, None)?;
    let body = join_negated(alloc, cnf, atoms, &rule.neg, body)?;
    let all = join_negated(alloc, cnf, atoms, &beside, body)?;
    all_of(alloc, cnf, all)
}

/// Adds the formula that one of the rules gives the set external support. Returns its number.
fn push_supports(
    alloc: Global,
    cnf: &mut Cnf,
    atoms: &[Name],
    rules: &[ProgRule],
    set: &[Name],
) -> Result<u64, Memory>
    requires { CanAdd atoms.now cnf.old (AreOverRules atoms.now (map rule_of rules.now)) }
    ensures { IfOk result (AddsOccurrence atoms.now (disjunction (map (outside_formula set.now)
        (filter (may_support set.now) (map rule_of rules.now)))) cnf.old cnf.new) }
{
    let mut any = None;
    for rule in rules {
        if may_support(set, rule) {
            let x = push_outside(alloc, cnf, atoms, rule, set)?;
            let n = join_either(alloc, cnf, any, x)?;
            any = Some(n);
        }
    }
    any_of(alloc, cnf, any)
}

/// Appends to a list of its own the clauses of the loop formula of the set: if one of its atoms is
/// true, some rule gives it external support.
fn push_one_support(
    alloc: Global,
    cnf: &mut Cnf,
    atoms: &[Name],
    rules: &[ProgRule],
    set: &[Name],
) -> Result<(), Memory>
    requires { CanAdd atoms.now cnf.old (AreOverRules atoms.now (map rule_of rules.now)
        × AreNamesOf atoms.now set.now) }
    ensures { OnOk result (AddsFormulas atoms.now (support_formula (map rule_of rules.now) set.now
        ∷ []) cnf.old cnf.new) }
{
    let x = push_either(alloc, cnf, atoms, set)?;
    let y = push_supports(alloc, cnf, atoms, rules, set)?;
    let n = push_implies(alloc, cnf, x, y)?;
    push_unit(alloc, cnf, n)
}

/// Adds the clauses of the loop formula of the set: if one of its atoms is true, some rule gives it
/// external support. If memory runs out, the list is as before.
pub fn push_support(
    alloc: Global,
    cnf: &mut Cnf,
    atoms: &[Name],
    rules: &[ProgRule],
    set: &[Name],
) -> Result<(), Memory>
    requires rules { AreOverRules atoms.now (map rule_of rules.now) }
    requires over { AreNamesOf atoms.now set.now }
    requires room { length atoms.now ≤ cnf.old.vars }
    ensures grows { IfOk result (λ _. cnf.old.vars ≤ cnf.new.vars) }
    ensures pushed { IfOk result (λ _. cnf.new
        ≡ with_formulas atoms.now cnf.old (support_formula (map rule_of rules.now) set.now ∷ [])) }
    ensures err { OnErr result (cnf.new ≡ cnf.old) }
{
    let mut own = Cnf::new(alloc, cnf.vars());
    push_one_support(alloc, &mut own, atoms, rules, set)?;
    cnf.append(own)
}
