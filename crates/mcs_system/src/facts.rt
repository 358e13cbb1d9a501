//! Programs with facts added.

ghost use Rattle.std.specs.Prelude.{◌≡◌, ◌++◌, [], ◌∷◌, map, IfOk};
ghost use Rattle.std.specs.List.{filter_map};
ghost use Rattle.mcs_system.specs.Plain as plain;
ghost use Rattle.mcs_system.specs.Logic.{fact_of};
ghost use Rattle.mcs_system.specs.Seen.{formula_of, rule_of};

use crate::formula::Formula;
use crate::knowledge::ProgRule;
use crate::name::Name;
use mcs_base::Memory;
use std::alloc::Global;

/// The fact of an atom: a rule with this one head atom and an empty body.
fn fact(alloc: Global, atom: &Name) -> Result<ProgRule, Memory>
    ensures { IfOk result (λ r. rule_of r ≡ record { head = atom.now ∷ []; pos = []; neg = [] }) }
{
    let mut head = Vec::new(alloc);
    head.push(atom.copy(alloc)?)?;
    Ok(ProgRule {
        head,
        pos: Vec::new(alloc),
        neg: Vec::new(alloc),
    })
}

/// Copies of the rules, in the same order.
fn copies(alloc: Global, rules: &[ProgRule]) -> Result<Vec<ProgRule>, Memory>
    ensures { IfOk result (λ all. map rule_of all.items ≡ map rule_of rules.now) }
{
    let mut all = Vec::new(alloc);
    for rule in rules {
        all.push(rule.copy(alloc)?)?;
    }
    Ok(all)
}

/// The rules, followed by each of the names as a fact.
pub fn with_facts(
    alloc: Global,
    rules: &[ProgRule],
    added: &[&Name],
) -> Result<Vec<ProgRule>, Memory>
    ensures { IfOk result (λ all. map rule_of all.items
        ≡ map rule_of rules.now ++ filter_map fact_of
        (map plain.Atom (map (λ b. b.now) added.now))) }
{
    let mut all = copies(alloc, rules)?;
    for name in added {
        all.push(fact(alloc, name)?)?;
    }
    Ok(all)
}

/// The rules, followed by a fact for each head that is an atom.
pub fn with_heads(
    alloc: Global,
    rules: &[ProgRule],
    heads: &[&Formula],
) -> Result<Vec<ProgRule>, Memory>
    ensures { IfOk result (λ all. map rule_of all.items
        ≡ map rule_of rules.now ++ filter_map fact_of (map (λ f. formula_of f.now) heads.now)) }
{
    let mut all = copies(alloc, rules)?;
    for head in heads {
        if let Formula::Atom(name) = *head {
            all.push(fact(alloc, name)?)?;
        }
    }
    Ok(all)
}
