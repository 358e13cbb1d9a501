//! The tests that a rule may be added to those of a system, as far as these depend on the rule, on
//! the names and targets of the others, and on which contexts are programs.

ghost use Rattle.std.specs.Prelude.{◌≡◌, ◌&&◌, IsTrue, not, nat_eq, nat_lt, count_by, map, min};
ghost use Rattle.std.specs.Prelude.{slice_get};
ghost use Rattle.std.specs.List.{list_any};
ghost use Rattle.mcs_system.specs.Faults.{has_large_part, has_misfit, is_atom, is_large};
ghost use Rattle.mcs_system.specs.Faults.{is_program, points_outside};
ghost use Rattle.mcs_system.specs.Logic.{is_in};
ghost use Rattle.mcs_system.specs.Plain as plain;
ghost use Rattle.mcs_system.specs.Seen.{bridge_of, context_of, formula_of, formula_size};
ghost use Rattle.mcs_script.specs.Fitting.{IsFitting, IsSound};

use mcs_system::{Bridge, Context, Formula, Kb, Limit, Name, Read};

/// Whether some read is of a context whose number is not below `count`.
fn any_outside(count: usize, reads: &[Read]) -> bool
    ensures { result ≡ list_any (λ r. not (nat_lt r.context count)) reads.now }
{
    reads.iter().any(|read| read.context as usize >= count)
}

/// Whether the target of the rule, or a context that it reads, has a number that is not below
/// `count`.
#[tactic(auto, using(mcs_base::proofs::Ranges::any_of_both))]
fn points_outside(count: usize, rule: &Bridge) -> bool
    ensures { result ≡ points_outside count (bridge_of rule.now) }
{
    rule.target as usize >= count || any_outside(count, &rule.pos) || any_outside(count, &rule.neg)
}

/// Whether the formula is an atom.
fn is_atom(formula: &Formula) -> bool
    ensures { result ≡ is_atom (formula_of formula.now) }
{
    matches!(formula, Formula::Atom(_))
}

/// Whether context `number` is a program and the formula is not an atom.
fn is_misfit(contexts: &[Context], number: u32, formula: &Formula) -> bool
    ensures { result ≡ (is_program (slice_get (map context_of contexts.now) number)
        && not (is_atom (formula_of formula.now))) }
{
    match contexts.get(number as usize) {
        Some(context) => matches!(context.kb, Kb::Program(_)) && !is_atom(formula),
        None => false,
    }
}

/// Whether some read is of a program and its belief is not an atom.
fn any_misfit(contexts: &[Context], reads: &[Read]) -> bool
    ensures { result ≡ list_any
        (λ r. is_program (slice_get (map context_of contexts.now) r.context) && not
        (is_atom (formula_of r.belief)))
        reads.now }
{
    reads
        .iter()
        .any(|read| is_misfit(contexts, read.context, &read.belief))
}

/// Whether the rule has the weight 0, or has a head into a program or a read of a program that is
/// not an atom.
#[tactic(auto, using(mcs_base::proofs::Ranges::any_of_both))]
fn has_misfit(contexts: &[Context], rule: &Bridge) -> bool
    ensures { result ≡ has_misfit (map context_of contexts.now) (bridge_of rule.now) }
{
    rule.weight == 0
        || is_misfit(contexts, rule.target, &rule.head)
        || any_misfit(contexts, &rule.pos)
        || any_misfit(contexts, &rule.neg)
}

/// How many atoms, constants and connectives the formula has; if there are more than the limit, the
/// limit and one.
fn capped_size(formula: &Formula) -> usize
    ensures { result ≡ min (formula_size (formula_of formula.now)) 513 }
{
    let size = match formula {
        Formula::True | Formula::False | Formula::Atom(_) => 1,
        Formula::Not(part) => capped_size(part) + 1,
        Formula::And(left, right)
        | Formula::Or(left, right)
        | Formula::Implies(left, right)
        | Formula::Iff(left, right) => capped_size(left) + capped_size(right) + 1,
    };
    size.min(Limit::FormulaSize.most() + 1)
}

/// Whether the formula is larger than the limit.
fn is_large(formula: &Formula) -> bool
    ensures { result ≡ is_large (formula_of formula.now) }
{
    Limit::FormulaSize.is_exceeded_by(capped_size(formula))
}

/// Whether some read has a belief larger than the limit.
fn any_large_read(reads: &[Read]) -> bool
    ensures { result ≡ list_any (λ r. is_large (formula_of r.belief)) reads.now }
{
    reads.iter().any(|read| is_large(&read.belief))
}

/// Whether the head of the rule, or a belief that it reads, is larger than the limit.
#[tactic(auto, using(mcs_base::proofs::Ranges::any_of_both))]
fn has_large_part(rule: &Bridge) -> bool
    ensures { result ≡ has_large_part (bridge_of rule.now) }
{
    is_large(&rule.head) || any_large_read(&rule.pos) || any_large_read(&rule.neg)
}

/// How many of the rules go into the context.
fn rules_into(rules: &[Bridge], context: u32) -> usize
    ensures { result
        ≡ count_by (λ (b : plain.Bridge). nat_eq b.target context) (map bridge_of rules.now) }
{
    rules.iter().filter(|rule| rule.target == context).count()
}

/// Whether some rule has the name.
pub(crate) fn has_rule(rules: &[Bridge], name: &Name) -> bool
    ensures { result
        ≡ is_in name.now (map (λ (b : plain.Bridge). b.name) (map bridge_of rules.now)) }
{
    rules.iter().any(|rule| name.is(&rule.name))
}

/// Whether the rule by itself has no fault.
fn is_sound(contexts: &[Context], rule: &Bridge) -> bool
    ensures { IsTrue result → IsSound (map context_of contexts.now) (bridge_of rule.now) }
{
    !points_outside(contexts.len(), rule)
        && !has_misfit(contexts, rule)
        && !Limit::Weight.is_exceeded_by(rule.weight as usize)
        && !has_large_part(rule)
}

/// Whether the rule may be added to the others, as far as variables, inputs and atoms are left
/// aside.
pub(crate) fn fits(contexts: &[Context], rules: &[Bridge], rule: &Bridge) -> bool
    ensures { IsTrue result
        → IsFitting (map context_of contexts.now) (map bridge_of rules.now) (bridge_of rule.now) }
{
    !has_rule(rules, &rule.name)
        && rules.len() < Limit::Bridges.most()
        && rules_into(rules, rule.target) < Limit::RulesPerContext.most()
        && is_sound(contexts, rule)
}
