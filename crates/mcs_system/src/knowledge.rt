//! Knowledge bases: formulas, default theories and programs.

ghost use Rattle.std.specs.Prelude.{◌≡◌, IfOk};
ghost use Rattle.mcs_system.specs.Atoms.{kb_atoms};
ghost use Rattle.mcs_system.specs.Faults.{has_large_item, item_count};
ghost use Rattle.mcs_system.specs.Gathered.{GathersNames};
ghost use Rattle.mcs_system.specs.Naming.{IsNamedKb};
ghost use Rattle.mcs_system.specs.Plain as plain;
ghost use Rattle.mcs_system.specs.Seen.{context_of, default_of, item_of, kb_of, rule_of};

use crate::atoms::add_each;
use crate::copied::{Copied, copy_each};
use crate::fault::BuildFault;
use crate::formula::Formula;
use crate::name::Name;
use crate::names::are_named;
use crate::sizes::any_large;
use mcs_base::Memory;
use std::alloc::Global;

/// A default (Reiter 1980): if the prerequisite is believed and the negation of no justification
/// is, the consequent is believed.
#[derive(PartialEq)]
pub struct Default {
    pub pre: Formula,
    pub justs: Vec<Formula>,
    pub conclusion: Formula,
}

impl Drop for Default {
    fn drop(self) {
        let Default {
            pre: _,
            justs: _,
            conclusion: _,
        } = self;
    }
}

impl Default {
    /// An equal default.
    pub fn copy(&self, alloc: Global) -> Result<Default, Memory>
        ensures { IfOk result (λ d. default_of d ≡ default_of self.now) }
    {
        let justs = copy_each(alloc, &self.justs)?;
        let pre = self.pre.copy(alloc)?;
        match self.conclusion.copy(alloc) {
            Ok(conclusion) => Ok(Default {
                pre,
                justs,
                conclusion,
            }),
            Err(want) => {
                drop((pre, justs));
                Err(want)
            }
        }
    }
}

/// A rule of a disjunctive program: if all positive body atoms hold and no negative one does, one
/// of the head atoms holds.
#[derive(PartialEq)]
pub struct ProgRule {
    pub head: Vec<Name>,
    pub pos: Vec<Name>,
    pub neg: Vec<Name>,
}

impl Drop for ProgRule {
    fn drop(self) {
        let ProgRule {
            head: _,
            pos: _,
            neg: _,
        } = self;
    }
}

impl ProgRule {
    /// An equal rule.
    pub fn copy(&self, alloc: Global) -> Result<ProgRule, Memory>
        ensures { IfOk result (λ r. rule_of r ≡ rule_of self.now) }
    {
        Ok(ProgRule {
            head: copy_each(alloc, &self.head)?,
            pos: copy_each(alloc, &self.pos)?,
            neg: copy_each(alloc, &self.neg)?,
        })
    }
}

impl Copied for ProgRule {
    ghost Seen = { plain.ProgramRule };

    ghost seen = { rule_of };

    fn copied(&self, alloc: Global) -> Result<ProgRule, Memory> {
        self.copy(alloc)
    }
}

/// An item of a default theory.
#[derive(PartialEq)]
pub enum TheoryItem {
    Fact(Formula),
    Rule(Default),
}

impl Drop for TheoryItem {
    fn drop(self) {
        match self {
            TheoryItem::Fact(_) => {}
            TheoryItem::Rule(_) => {}
        }
    }
}

impl TheoryItem {
    /// An equal item.
    pub fn copy(&self, alloc: Global) -> Result<TheoryItem, Memory>
        ensures { IfOk result (λ i. item_of i ≡ item_of self.now) }
    {
        Ok(match self {
            TheoryItem::Fact(formula) => TheoryItem::Fact(formula.copy(alloc)?),
            TheoryItem::Rule(default) => TheoryItem::Rule(default.copy(alloc)?),
        })
    }
}

impl Copied for TheoryItem {
    ghost Seen = { plain.Item };

    ghost seen = { item_of };

    fn copied(&self, alloc: Global) -> Result<TheoryItem, Memory> {
        self.copy(alloc)
    }
}

/// A knowledge base of one of the three logics.
#[derive(PartialEq)]
pub enum Kb {
    Classical(Vec<Formula>),
    DefaultTheory(Vec<TheoryItem>),
    Program(Vec<ProgRule>),
}

impl Drop for Kb {
    fn drop(self) {
        match self {
            Kb::Classical(_) => {}
            Kb::DefaultTheory(_) => {}
            Kb::Program(_) => {}
        }
    }
}

impl Kb {
    /// An equal knowledge base.
    pub fn copy(&self, alloc: Global) -> Result<Kb, Memory>
        ensures { IfOk result (λ k. kb_of k ≡ kb_of self.now) }
    {
        Ok(match self {
            Kb::Classical(formulas) => Kb::Classical(copy_each(alloc, formulas)?),
            Kb::DefaultTheory(items) => Kb::DefaultTheory(copy_each(alloc, items)?),
            Kb::Program(rules) => Kb::Program(copy_each(alloc, rules)?),
        })
    }

    /// How many formulas, items or rules the knowledge base has.
    pub fn item_count(&self) -> usize
        ensures { result ≡ item_count (kb_of self.now) }
    {
        match self {
            Kb::Classical(formulas) => formulas.len(),
            Kb::DefaultTheory(items) => items.len(),
            Kb::Program(rules) => rules.len(),
        }
    }

    /// Adds the atoms that are not in `found` yet. Refuses if there are more than the limit.
    pub(crate) fn add_atoms(&self, alloc: Global, found: &mut Vec<Name>) -> Result<(), BuildFault>
        ensures { GathersNames found.old.items found.new.items (kb_atoms (kb_of self.now)) result }
    {
        match self {
            Kb::Classical(formulas) => add_each(alloc, formulas, found),
            Kb::DefaultTheory(items) => add_each(alloc, items, found),
            Kb::Program(rules) => add_each(alloc, rules, found),
        }
    }

    /// Whether some formula, item or rule is larger than the limit.
    pub(crate) fn has_large_item(&self) -> bool
        ensures { result ≡ has_large_item (kb_of self.now) }
    {
        match self {
            Kb::Classical(formulas) => any_large(formulas),
            Kb::DefaultTheory(items) => any_large(items),
            Kb::Program(rules) => any_large(rules),
        }
    }

    /// The names in the knowledge base are names. This computes nothing.
    pub(crate) fn is_named(&self)
        ensures { IsNamedKb (kb_of self.now) }
    {
        match self {
            Kb::Classical(formulas) => are_named(formulas),
            Kb::DefaultTheory(items) => are_named(items),
            Kb::Program(rules) => are_named(rules),
        }
    }
}

/// A context: a name and a knowledge base.
#[derive(PartialEq)]
pub struct Context {
    pub name: Name,
    pub kb: Kb,
}

impl Drop for Context {
    fn drop(self) {
        let Context { name: _, kb: _ } = self;
    }
}

impl Context {
    /// An equal context.
    pub fn copy(&self, alloc: Global) -> Result<Context, Memory>
        ensures { IfOk result (λ c. context_of c ≡ context_of self.now) }
    {
        Ok(Context {
            name: self.name.copy(alloc)?,
            kb: self.kb.copy(alloc)?,
        })
    }
}
