//! The tests that decide whether lists of contexts and bridge rules make a system.

ghost use Rattle.std.specs.Prelude.{◌≡◌, ◌&&◌, Bool, IfOk, List, not, nat_eq, nat_lt, count_by, map, min};
ghost use Rattle.std.specs.Prelude.{slice_get};
ghost use Rattle.std.specs.List.{list_any};
ghost use Rattle.mcs_system.specs.declared.bridge.Bridge.{Bridge};
ghost use Rattle.mcs_system.specs.declared.knowledge.Context.{Context};
ghost use Rattle.mcs_system.specs.declared.limit.Limit.TheVariants.{RulesPerContext};
ghost use Rattle.mcs_system.specs.declared.limit.Limit.TheVariants.{DefaultsPerContext};
ghost use Rattle.mcs_system.specs.declared.limit.Limit.TheVariants.{ItemsPerContext, Weight};
ghost use Rattle.mcs_system.specs.declared.limit.Limit.TheVariants.{FormulaSize};
ghost use Rattle.mcs_system.specs.Faults.{default_count, exceeds, has_large_formula};
ghost use Rattle.mcs_system.specs.Faults.{has_large_item, has_large_part, has_misfit, has_misfits};
ghost use Rattle.mcs_system.specs.Faults.{has_twins, has_twin_names, has_unjustified};
ghost use Rattle.mcs_system.specs.Faults.{has_unknown_context, is_atom, is_large, is_large_rule};
ghost use Rattle.mcs_system.specs.Faults.{is_program, is_unjustified, points_outside};
ghost use Rattle.mcs_system.specs.Plain.{Name};
ghost use Rattle.mcs_system.specs.Seen.{bridge_of, context_of, formula_of, formula_size, item_of};
ghost use Rattle.mcs_system.specs.Seen.{kb_of, read_of, rule_of, system_of};

use crate::bridge::{Bridge, Read};
use crate::formula::Formula;
use crate::knowledge::{Context, Kb, TheoryItem};
use crate::limit::Limit;
use crate::sizes::any_large;
use mcs_base::Memory;
use std::alloc::Global;
use std::collections::BTreeSet;

/// Whether some read is of a context whose number is not below `count`.
fn any_outside(count: usize, reads: &[Read]) -> bool
    ensures { result ≡ list_any (λ r. not (nat_lt r.context count)) reads.now }
{
    reads.iter().any(|read| read.context as usize >= count)
}

/// Whether the target of the rule, or a context that it reads, has a number that is not below
/// `count`.
#[tactic(auto, using(mcs_base::proofs::Ranges::any_of_both))]
fn points_outside(count: usize, bridge: &Bridge) -> bool
    ensures { result ≡ points_outside count (bridge_of bridge.now) }
{
    bridge.target as usize >= count
        || any_outside(count, &bridge.pos)
        || any_outside(count, &bridge.neg)
}

/// Whether the target of some rule, or a context that it reads, is none of the contexts.
pub(crate) fn has_unknown_context(contexts: &[Context], bridges: &[Bridge]) -> bool
    ensures { result ≡ has_unknown_context (system_of contexts.now bridges.now) }
{
    bridges
        .iter()
        .any(|bridge| points_outside(contexts.len(), bridge))
}

/// A part of a system that has a name.
pub(crate) trait HasName {
    ghost named: { Self → Name };

    /// The bytes of the name.
    fn name_bytes(&self) -> &[u8]
        ensures { result.now ≡ named self.now };
}

impl HasName for Context {
    ghost named = { λ c. c.name };

    fn name_bytes(&self) -> &[u8] {
        self.name.bytes()
    }
}

impl HasName for Bridge {
    ghost named = { λ b. b.name };

    fn name_bytes(&self) -> &[u8] {
        self.name.bytes()
    }
}

/// Whether two of the items have the same name.
pub(crate) fn has_twins<T: HasName>(alloc: Global, items: &[T]) -> Result<bool, Memory>
    ensures { IfOk result (λ b. b ≡ has_twins (map T.named items.now)) }
{
    let mut seen = BTreeSet::new(alloc);
    for item in items {
        if !seen.insert(item.name_bytes())? {
            return Ok(true);
        }
    }
    Ok(false)
}

/// Whether two contexts, or two bridge rules, have the same name.
pub(crate) fn has_twin_names(
    alloc: Global,
    contexts: &[Context],
    bridges: &[Bridge],
) -> Result<bool, Memory>
    ensures { IfOk result (λ b. b ≡ has_twin_names (system_of contexts.now bridges.now)) }
{
    Ok(has_twins(alloc, contexts)? || has_twins(alloc, bridges)?)
}

/// Whether the formula is an atom.
fn is_atom(formula: &Formula) -> bool
    ensures { result ≡ is_atom (formula_of formula.now) }
{
    matches!(formula, Formula::Atom(_))
}

/// Whether context `number` is a program and the formula is not an atom.
fn is_misfit(contexts: &[Context], number: u32, formula: &Formula) -> bool
    ensures { result ≡ (is_program (slice_get (map context_of contexts.now) number)
        && not (is_atom (formula_of formula.now))) }
{
    match contexts.get(number as usize) {
        Some(context) => matches!(context.kb, Kb::Program(_)) && !is_atom(formula),
        None => false,
    }
}

/// Whether some read is of a program and its belief is not an atom.
fn any_misfit(contexts: &[Context], reads: &[Read]) -> bool
    ensures { result ≡ list_any
        (λ r. is_program (slice_get (map context_of contexts.now) r.context) && not
        (is_atom (formula_of r.belief)))
        reads.now }
{
    reads
        .iter()
        .any(|read| is_misfit(contexts, read.context, &read.belief))
}

/// Whether the rule has the weight 0, or has a head into a program or a read of a program that is
/// not an atom.
#[tactic(auto, using(mcs_base::proofs::Ranges::any_of_both))]
fn has_misfit(contexts: &[Context], bridge: &Bridge) -> bool
    ensures { result ≡ has_misfit (map context_of contexts.now) (bridge_of bridge.now) }
{
    bridge.weight == 0
        || is_misfit(contexts, bridge.target, &bridge.head)
        || any_misfit(contexts, &bridge.pos)
        || any_misfit(contexts, &bridge.neg)
}

/// Whether some rule has the weight 0, or has a head into a program or a read of a program that is
/// not an atom.
pub(crate) fn any_rule_misfit(contexts: &[Context], bridges: &[Bridge]) -> bool
    ensures { result
        ≡ list_any (λ b. has_misfit (map context_of contexts.now) (bridge_of b)) bridges.now }
{
    bridges.iter().any(|bridge| has_misfit(contexts, bridge))
}

/// Whether the item is a default with no justification.
fn is_unjustified(item: &TheoryItem) -> bool
    ensures { result ≡ is_unjustified (item_of item.now) }
{
    match item {
        TheoryItem::Fact(_) => false,
        TheoryItem::Rule(default) => default.justs.is_empty(),
    }
}

/// Whether some default has no justification.
fn has_unjustified(items: &[TheoryItem]) -> bool
    ensures { result ≡ list_any (λ i. is_unjustified (item_of i)) items.now }
{
    items.iter().any(is_unjustified)
}

/// Whether some default of the knowledge base has no justification.
#[tactic(auto, using(mcs_base::proofs::Ranges::any_of_map))]
fn has_unjustified_default(kb: &Kb) -> bool
    ensures { result ≡ has_unjustified (kb_of kb.now) }
{
    let Kb::DefaultTheory(items) = kb else {
        return false;
    };
    has_unjustified(items)
}

/// Whether some default of some context has no justification.
fn any_unjustified(contexts: &[Context]) -> bool
    ensures { result ≡ list_any (λ c. has_unjustified (kb_of c.kb)) contexts.now }
{
    contexts
        .iter()
        .any(|context| has_unjustified_default(&context.kb))
}

/// Whether some default has no justification, or some rule has the weight 0, or has a head into a
/// program or a read of a program that is not an atom.
#[tactic(auto, using(mcs_base::proofs::Ranges::any_of_map))]
pub(crate) fn has_misfits(contexts: &[Context], bridges: &[Bridge]) -> bool
    ensures { result ≡ has_misfits (system_of contexts.now bridges.now) }
{
    any_unjustified(contexts) || any_rule_misfit(contexts, bridges)
}

/// How many rules go into the context.
fn rules_into(bridges: &[Bridge], context: usize) -> usize
    ensures { result ≡ count_by (λ b. nat_eq b.target context) (map bridge_of bridges.now) }
{
    bridges
        .iter()
        .filter(|bridge| bridge.target as usize == context)
        .count()
}

/// Whether more rules go into one context than the limit.
#[tactic(auto, unfolding(crate::specs::Faults::exceeds))]
pub(crate) fn has_crowded_context(contexts: &[Context], bridges: &[Bridge]) -> bool
    ensures { result ≡ exceeds (system_of contexts.now bridges.now) RulesPerContext }
{
    (0..contexts.len()).any(|context| Limit::RulesPerContext.is_exceeded_by(rules_into(
        bridges, context,
    )))
}

/// How many defaults the knowledge base has.
fn default_count(kb: &Kb) -> usize
    ensures { result ≡ default_count (kb_of kb.now) }
{
    let Kb::DefaultTheory(items) = kb else {
        return 0;
    };
    let mut count = 0;
    for item in items {
        if let TheoryItem::Rule(_) = item {
            count += 1;
        }
    }
    count
}

/// Whether some context has more defaults than the limit.
#[tactic(auto, unfolding(crate::specs::Faults::exceeds))]
pub(crate) fn has_many_defaults(contexts: &[Context]) -> bool
    ensures { (bridges : List Bridge) →
        result ≡ exceeds (system_of contexts.now bridges) DefaultsPerContext }
{
    contexts.iter().any(|context| Limit::DefaultsPerContext.is_exceeded_by(default_count(
        &context.kb,
    )))
}

/// Whether some context has more formulas, items or rules than the limit.
#[tactic(auto, unfolding(crate::specs::Faults::exceeds))]
pub(crate) fn has_many_items(contexts: &[Context]) -> bool
    ensures { (bridges : List Bridge) →
        result ≡ exceeds (system_of contexts.now bridges) ItemsPerContext }
{
    contexts.iter().any(|context| Limit::ItemsPerContext.is_exceeded_by(context.kb.item_count()))
}

/// Whether the weight of some rule is over the limit.
#[tactic(auto, unfolding(crate::specs::Faults::exceeds))]
pub(crate) fn has_heavy_rule(bridges: &[Bridge]) -> bool
    ensures { (contexts : List Context) →
        result ≡ exceeds (system_of contexts bridges.now) Weight }
{
    bridges.iter().any(|bridge| Limit::Weight.is_exceeded_by(bridge.weight as usize))
}

/// Whether some formula, or some rule of a program, is larger than the limit.
#[tactic(auto, unfolding(crate::specs::Faults::exceeds))]
pub(crate) fn has_large_formula(contexts: &[Context], bridges: &[Bridge]) -> bool
    ensures { result ≡ exceeds (system_of contexts.now bridges.now) FormulaSize }
{
    any_large(contexts) || any_large(bridges)
}
