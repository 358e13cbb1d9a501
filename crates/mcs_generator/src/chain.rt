//! The links of a chain, as formulas, as defaults and as rules of a program.

ghost use Rattle.std.specs.Prelude.{◌≡◌, ◌≤◌, IfOk, [], ◌∷◌, codes};
ghost use Rattle.mcs_system.specs.Plain as plain;
ghost use Rattle.mcs_system.specs.Seen.{formula_of, default_of, rule_of};
ghost use Rattle.mcs_generator.specs.Generated.{implication, first_formula, link_formula};
ghost use Rattle.mcs_generator.specs.Generated.{first_default, rule, first_rule, link_rule};

use crate::names::{break_name, link_name, rival_name, start_name};
use mcs_base::Memory;
use mcs_system::{Default, Formula, Name, ProgRule};
use std::alloc::Global;

/// The atom with this name, as a formula.
pub(crate) fn atom(name: Name) -> Formula
    ensures { formula_of result ≡ plain.Atom name }
{
    Formula::Atom(name)
}

/// The formula that one atom implies another.
fn implication(alloc: Global, from: Name, to: Name) -> Result<Formula, Memory>
    ensures { IfOk result (λ f. formula_of f ≡ implication from to) }
{
    let from = Box::new(alloc, Formula::Atom(from))?;
    let to = Box::new(alloc, Formula::Atom(to))?;
    Ok(Formula::Implies(from, to))
}

/// The formula that x implies the first link.
pub(crate) fn first_formula(alloc: Global) -> Result<Formula, Memory>
    ensures { IfOk result (λ f. formula_of f ≡ first_formula) }
{
    let from = start_name(alloc)?;
    let to = link_name(alloc, 1)?;
    implication(alloc, from, to)
}

/// The formula that the link before this one implies it.
pub(crate) fn link_formula(alloc: Global, link: u32) -> Result<Formula, Memory>
    requires { 1 ≤ link }
    ensures { IfOk result (λ f. formula_of f ≡ link_formula link) }
{
    let from = link_name(alloc, link - 1)?;
    let to = link_name(alloc, link)?;
    implication(alloc, from, to)
}

/// The list of this one name.
fn alone(alloc: Global, name: Name) -> Result<Vec<Name>, Memory>
    ensures { IfOk result (λ ns. ns.items ≡ name ∷ []) }
{
    let mut names = Vec::new(alloc);
    names.push(name)?;
    Ok(names)
}

/// The default for the first link: it is believed if x is, unless it is refuted.
pub(crate) fn first_default(alloc: Global) -> Result<Default, Memory>
    ensures { IfOk result (λ d. default_of d ≡ first_default) }
{
    let mut justs = Vec::new(alloc);
    justs.push(atom(link_name(alloc, 1)?))?;
    let pre = start_name(alloc)?;
    let conclusion = link_name(alloc, 1)?;
    Ok(Default {
        pre: atom(pre),
        justs,
        conclusion: atom(conclusion),
    })
}

/// The rule for the first link: it holds if x does.
pub(crate) fn first_rule(alloc: Global) -> Result<ProgRule, Memory>
    ensures { IfOk result (λ r. rule_of r ≡ first_rule) }
{
    let head = alone(alloc, link_name(alloc, 1)?)?;
    let pos = alone(alloc, start_name(alloc)?)?;
    Ok(ProgRule {
        head,
        pos,
        neg: Vec::new(alloc),
    })
}

/// The rule for a later link: it holds if the link before it does and b does not.
pub(crate) fn link_rule(alloc: Global, link: u32) -> Result<ProgRule, Memory>
    requires { 1 ≤ link }
    ensures { IfOk result (λ r. rule_of r ≡ link_rule link) }
{
    let head = alone(alloc, link_name(alloc, link)?)?;
    let pos = alone(alloc, link_name(alloc, link - 1)?)?;
    let neg = alone(alloc, break_name(alloc)?)?;
    Ok(ProgRule { head, pos, neg })
}

/// The disjunctive rule with the head x or y.
pub(crate) fn choice_rule(alloc: Global) -> Result<ProgRule, Memory>
    ensures { IfOk result (λ r. rule_of r ≡ rule (codes "x" ∷ codes "y" ∷ []) [] []) }
{
    let mut head = alone(alloc, start_name(alloc)?)?;
    head.push(rival_name(alloc)?)?;
    Ok(ProgRule {
        head,
        pos: Vec::new(alloc),
        neg: Vec::new(alloc),
    })
}

/// The constraint that the atom does not hold.
pub(crate) fn forbidding_rule(alloc: Global, atom: Name) -> Result<ProgRule, Memory>
    ensures { IfOk result (λ r. rule_of r ≡ rule [] (atom ∷ []) []) }
{
    let pos = alone(alloc, atom)?;
    Ok(ProgRule {
        head: Vec::new(alloc),
        pos,
        neg: Vec::new(alloc),
    })
}
