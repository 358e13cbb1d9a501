//! The knowledge bases of a generated system.

ghost use Rattle.std.specs.Prelude.{◌≡◌, ◌<◌, IfOk, OnOk, ◌++◌, map};
ghost use Rattle.mcs_system.specs.Seen.{context_of, formula_of, item_of, kb_of, rule_of};
ghost use Rattle.mcs_generator.specs.Generated.{context_count, choice_rules, link_rule};
ghost use Rattle.mcs_generator.specs.Generated.{link_formula, link_fact, later_links};
ghost use Rattle.mcs_generator.specs.Generated.{forbidding_rules, program_rules};
ghost use Rattle.mcs_generator.specs.Generated.{classical_formulas, theory_items, generated_kb};
ghost use Rattle.mcs_generator.specs.Generated.{generated_context};

use crate::chain::{
    choice_rule, first_default, first_formula, first_rule, forbidding_rule, link_formula, link_rule,
};
use crate::names::{context_name, rival_name, start_name};
use crate::numbers::{chain_length, is_forbidding, is_program_at};
use mcs_base::Memory;
use mcs_system::{Context, Formula, Kb, ProgRule, TheoryItem};
use std::alloc::Global;

/// Adds the rule that chooses between x and y, if this is the first context.
fn add_choice(alloc: Global, context: u32, rules: &mut Vec<ProgRule>) -> Result<(), Memory>
    ensures { OnOk result (map rule_of rules.new.items
        ≡ map rule_of rules.old.items ++ choice_rules context) }
{
    if context == 0 {
        rules.push(choice_rule(alloc)?)?;
    }
    Ok(())
}

/// Adds the links, except the first one, as rules.
fn add_link_rules(alloc: Global, number: u64, rules: &mut Vec<ProgRule>) -> Result<(), Memory>
    ensures { OnOk result (map rule_of rules.new.items
        ≡ map rule_of rules.old.items ++ map link_rule (later_links number)) }
{
    for link in 2..chain_length(number) + 1 {
        rules.push(link_rule(alloc, link)?)?;
    }
    Ok(())
}

/// Adds the rules that forbid x and y, if this is the last context of a system that is meant to be
/// inconsistent.
fn add_forbidding(
    alloc: Global,
    number: u64,
    context: u32,
    rules: &mut Vec<ProgRule>,
) -> Result<(), Memory>
    requires { context < context_count number }
    ensures { OnOk result (map rule_of rules.new.items
        ≡ map rule_of rules.old.items ++ forbidding_rules number context) }
{
    if is_forbidding(number, context) {
        rules.push(forbidding_rule(alloc, start_name(alloc)?)?)?;
        rules.push(forbidding_rule(alloc, rival_name(alloc)?)?)?;
    }
    Ok(())
}

/// The rules of a context that is a program.
fn program(alloc: Global, number: u64, context: u32) -> Result<Vec<ProgRule>, Memory>
    requires { context < context_count number }
    ensures { IfOk result (λ rules. map rule_of rules.items ≡ program_rules number context) }
{
    let mut rules = Vec::new(alloc);
    add_choice(alloc, context, &mut rules)?;
    rules.push(first_rule(alloc)?)?;
    add_link_rules(alloc, number, &mut rules)?;
    add_forbidding(alloc, number, context, &mut rules)?;
    Ok(rules)
}

/// Adds the links, except the first one, as formulas.
fn add_link_formulas(alloc: Global, number: u64, formulas: &mut Vec<Formula>) -> Result<(), Memory>
    ensures { OnOk result (map formula_of formulas.new.items
        ≡ map formula_of formulas.old.items ++ map link_formula (later_links number)) }
{
    for link in 2..chain_length(number) + 1 {
        formulas.push(link_formula(alloc, link)?)?;
    }
    Ok(())
}

/// The formulas of a classical context.
fn formulas(alloc: Global, number: u64) -> Result<Vec<Formula>, Memory>
    ensures { IfOk result (λ formulas. map formula_of formulas.items ≡ classical_formulas number) }
{
    let mut formulas = Vec::new(alloc);
    formulas.push(first_formula(alloc)?)?;
    add_link_formulas(alloc, number, &mut formulas)?;
    Ok(formulas)
}

/// Adds the links, except the first one, as facts.
fn add_link_facts(alloc: Global, number: u64, items: &mut Vec<TheoryItem>) -> Result<(), Memory>
    ensures { OnOk result (map item_of items.new.items
        ≡ map item_of items.old.items ++ map link_fact (later_links number)) }
{
    for link in 2..chain_length(number) + 1 {
        items.push(TheoryItem::Fact(link_formula(alloc, link)?))?;
    }
    Ok(())
}

/// The items of a default theory.
fn items(alloc: Global, number: u64) -> Result<Vec<TheoryItem>, Memory>
    ensures { IfOk result (λ items. map item_of items.items ≡ theory_items number) }
{
    let mut items = Vec::new(alloc);
    items.push(TheoryItem::Rule(first_default(alloc)?))?;
    add_link_facts(alloc, number, &mut items)?;
    Ok(items)
}

/// The knowledge base of the context with this number.
fn kb(alloc: Global, number: u64, context: u32) -> Result<Kb, Memory>
    requires { context < context_count number }
    ensures { IfOk result (λ kb. kb_of kb ≡ generated_kb number context) }
{
    if is_program_at(number, context) {
        Ok(Kb::Program(program(alloc, number, context)?))
    } else if context % 3 == 1 {
        Ok(Kb::Classical(formulas(alloc, number)?))
    } else {
        Ok(Kb::DefaultTheory(items(alloc, number)?))
    }
}

/// The context with this number.
pub(crate) fn context(alloc: Global, number: u64, context: u32) -> Result<Context, Memory>
    requires { context < context_count number }
    ensures { IfOk result (λ c. context_of c ≡ generated_context number context) }
{
    let name = context_name(alloc, context)?;
    let kb = kb(alloc, number, context)?;
    Ok(Context { name, kb })
}
