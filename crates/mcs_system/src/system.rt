//! Multi-context systems.

ghost use Rattle.std.specs.Prelude.{◌≡◌, ◌↔◌, IsTrue, ◌<◌, ◌≤◌, cond, length, map, Some, slice_get};
ghost use Rattle.std.specs.Prelude.{IfOk, IfErr};
ghost use Rattle.mcs_sets.specs.Sets.{common, single, union};
ghost use Rattle.mcs_system.specs.Atoms.{atoms_of};
ghost use Rattle.mcs_system.specs.Built.{IsFaultOf};
ghost use Rattle.mcs_system.specs.Edits.{with_rule, with_rules, without_rule};
ghost use Rattle.mcs_system.specs.Faults.{IsValid};
ghost use Rattle.mcs_system.specs.Imports.{rules_into};
ghost use Rattle.mcs_system.specs.Naming.{IsSystemNamed};
ghost use Rattle.mcs_system.specs.Parts.{context_part, context_part_of, rule_part, rule_part_of};
ghost use Rattle.mcs_system.specs.Plain as plain;
ghost use Rattle.mcs_system.specs.Repairs.{allowed_marks};
ghost use Rattle.mcs_system.specs.Rows.{inputs_of};
ghost use Rattle.mcs_system.specs.Seen.{context_of, bridge_of, read_of, system_of};
ghost use Rattle.mcs_system.specs.Systems.{variables, variables_of, applicable, is_applicable};

use crate::again::{keep_again, keep_valid_again};
use crate::bridge::{Bridge, Read};
use crate::build::{Built, keep, keep_valid};
use crate::copied::copy_each;
use crate::fault::BuildFault;
use crate::knowledge::Context;
use crate::known::KnownContexts;
use crate::name::Name;
use crate::parts::{ContextParts, Kept, RuleReads};
use mcs_base::{Active, Marks, Memory, Vars};
use std::alloc::Global;
use std::marker::Model;
use std::sync::Arc;

/// The marks with this one added, unless it is barred.
fn with_unless(marks: Marks, mark: u32, barred: bool) -> Marks
    requires { mark < 128 }
    ensures { result ≡ cond barred marks (union marks (single mark)) }
{
    if barred { marks } else { marks.with(mark) }
}

/// A multi-context system (Brewka & Eiter 2007): contexts and bridge rules that have none of the
/// faults.
pub struct System {
    contexts: Arc<KnownContexts>,
    bridges: Vec<Bridge>,
    kept: Kept,
}

impl Drop for System {
    fn drop(self) {
        let System {
            contexts: _,
            bridges: _,
            kept: _,
        } = self;
    }
}

impl Model for System {
    ghost use Rattle.std.specs.Arc.{arc_value};
    ghost use Rattle.mcs_system.specs.Built.{IsSystemKept, made_of};
    ghost use Rattle.mcs_system.specs.Codes.{coded_system};
    ghost use Rattle.mcs_system.specs.Plain as plain;

    ghost Value = { plain.System };

    ghost coded = { coded_system };

    ghost view = { λ s. made_of (arc_value s.contexts) s.bridges.items };

    ghost invariant = { λ s. IsSystemKept (arc_value s.contexts) s.bridges.items s.kept };
}

impl System {
    /// The system of these contexts and bridge rules, or the first of their faults. This is the
    /// fault with the lowest number; among exceeded limits it is the first in the order of `Limit`.
    pub fn build(
        alloc: Global,
        contexts: Vec<Context>,
        bridges: Vec<Bridge>,
    ) -> Result<System, BuildFault>
        ensures ok { IfOk result (λ s. (s ≡ system_of contexts.items bridges.items) × IsValid s) }
        ensures fault { IfErr result (IsFaultOf (system_of contexts.items bridges.items)) }
    {
        let Built { contexts, kept } = keep(alloc, contexts, &bridges)?;
        Ok(System {
            contexts: Arc::new(alloc, contexts)?,
            bridges,
            kept,
        })
    }

    /// The system of these contexts and bridge rules, which have none of the faults that `build`
    /// answers.
    pub fn of_valid(
        alloc: Global,
        contexts: Vec<Context>,
        bridges: Vec<Bridge>,
    ) -> Result<System, Memory>
        requires { IsValid (system_of contexts.items bridges.items) }
        ensures { IfOk result (λ s. s ≡ system_of contexts.items bridges.items) }
    {
        let Built { contexts, kept } = keep_valid(alloc, contexts, &bridges)?;
        Ok(System {
            contexts: Arc::new(alloc, contexts)?,
            bridges,
            kept,
        })
    }

    /// The same system. It shares the contexts.
    pub fn copy(&self, alloc: Global) -> Result<System, Memory>
        ensures { IfOk result (λ s. s ≡ self.now) }
    {
        let bridges = copy_each(alloc, &self.bridges)?;
        let kept = keep_valid_again(alloc, &self.contexts, &bridges)?;
        Ok(System {
            contexts: self.contexts.clone()?,
            bridges,
            kept,
        })
    }

    /// The system with this rule as its last one, or the first of the faults that it would have, in
    /// the order of `build`. The system shares the contexts. The time does not depend on the size of
    /// their knowledge bases.
    pub fn with_rule(self, alloc: Global, rule: Bridge) -> Result<System, BuildFault>
        ensures ok { IfOk result (λ s. (s ≡ with_rule self (bridge_of rule)) × IsValid s) }
        ensures fault { IfErr result (IsFaultOf (with_rule self (bridge_of rule))) }
    {
        let System {
            contexts,
            mut bridges,
            kept: _,
        } = self;
        bridges.push(rule)?;
        let kept = keep_again(alloc, &contexts, &bridges)?;
        Ok(System {
            contexts,
            bridges,
            kept,
        })
    }

    /// The system with these rules in place of its own, or the first of the faults that it would have,
    /// in the order of `build`. The system shares the contexts. The time does not depend on the size
    /// of their knowledge bases.
    pub fn with_rules(self, alloc: Global, rules: Vec<Bridge>) -> Result<System, BuildFault>
        ensures ok { IfOk result
            (λ s. (s ≡ with_rules self (map bridge_of rules.items)) × IsValid s) }
        ensures fault { IfErr result (IsFaultOf (with_rules self (map bridge_of rules.items))) }
    {
        let System {
            contexts,
            bridges: _,
            kept: _,
        } = self;
        let kept = keep_again(alloc, &contexts, &rules)?;
        Ok(System {
            contexts,
            bridges: rules,
            kept,
        })
    }

    /// The system without the rules of this name; those after them move up. It shares the contexts.
    /// The time does not depend on the size of their knowledge bases.
    pub fn without_rule(self, alloc: Global, name: &Name) -> Result<System, Memory>
        ensures { IfOk result (λ s. s ≡ without_rule self name.now) }
    {
        let System {
            contexts,
            mut bridges,
            kept: _,
        } = self;
        bridges.retain(|rule| !name.is(&rule.name));
        let kept = keep_valid_again(alloc, &contexts, &bridges)?;
        Ok(System {
            contexts,
            bridges,
            kept,
        })
    }

    /// Whether both systems have the same contexts and bridge rules, in the same order.
    pub fn is(&self, other: &System) -> bool
        ensures { IsTrue result ↔ (self.now ≡ other.now) }
    {
        self.contexts.items == other.contexts.items && self.bridges == other.bridges
    }

    /// The contexts, in the order of the text.
    pub fn contexts(&self) -> &[Context]
        ensures value { map context_of result.now ≡ self.now.contexts }
        ensures few { length result.now ≤ 64 }
        ensures valid { IsValid self.now }
        ensures named { IsSystemNamed self.now }
    {
        &self.contexts.items
    }

    /// The bridge rules, in the order of the text.
    pub fn bridges(&self) -> &[Bridge]
        ensures value { map bridge_of result.now ≡ self.now.bridges }
        ensures few { length result.now ≤ 64 }
        ensures valid { IsValid self.now }
        ensures named { IsSystemNamed self.now }
    {
        &self.bridges
    }

    /// The variables: the beliefs that bridge rules read, by context, and within a context by first
    /// occurrence.
    pub fn variables(&self) -> &[Read]
        ensures value { map read_of result.now ≡ variables self.now }
        ensures few { length result.now ≤ 64 }
        ensures valid { IsValid self.now }
    {
        &self.kept.variables
    }

    /// What is kept of a context of the system.
    fn parts_of(&self, context: u32) -> &ContextParts
        requires { context < length self.now.contexts }
        ensures part { context_part_of result.now ≡ context_part self.now context }
        ensures valid { IsValid self.now }
    {
        &self.kept.parts[context as usize]
    }

    /// What is kept of a rule of the system.
    fn reads_of(&self, rule: u32) -> &RuleReads
        requires { rule < length self.now.bridges }
        ensures part { (b : plain.Bridge) → slice_get self.now.bridges rule ≡ Some b
            → rule_part_of result.now ≡ rule_part (variables self.now) b }
        ensures valid { IsValid self.now }
    {
        &self.kept.reads[rule as usize]
    }

    /// Whether a rule of the system applies in the state.
    fn is_applicable(&self, rule: u32, state: Vars) -> bool
        requires { rule < length self.now.bridges }
        ensures { result ≡ is_applicable self.now state (slice_get self.now.bridges rule) }
    {
        let reads = self.reads_of(rule);
        reads.positive.within(state) && !reads.negative.meets(state)
    }

    /// The atoms of a context of the system, by first occurrence: in its items, in the heads of the
    /// rules into it, in its variables.
    pub fn atoms_of(&self, context: u32) -> &[Name]
        requires { context < length self.now.contexts }
        ensures value { result.now ≡ atoms_of self.now context }
        ensures few { length result.now ≤ 64 }
    {
        &self.parts_of(context).atoms
    }

    /// The variables of a context of the system.
    pub fn vars_of(&self, context: u32) -> Vars
        requires { context < length self.now.contexts }
        ensures { result ≡ variables_of self.now context }
    {
        self.parts_of(context).variables
    }

    /// The variables that rules into a context of the system read.
    pub fn inputs_of(&self, context: u32) -> Vars
        requires { context < length self.now.contexts }
        ensures { result ≡ inputs_of self.now context }
    {
        self.parts_of(context).inputs
    }

    /// The rules into a context of the system.
    pub fn rules_of(&self, context: u32) -> Active
        requires { context < length self.now.contexts }
        ensures { result ≡ rules_into self.now context }
    {
        self.parts_of(context).rules
    }

    /// The rules into a context of the system that apply in the state.
    pub fn applicable(&self, context: u32, state: Vars) -> Active
        requires { context < length self.now.contexts }
        ensures { result ≡ common (applicable self.now state) (rules_into self.now context) }
    {
        let mut rules = Active::empty();
        for r in self.rules_of(context).members() {
            if self.is_applicable(r, state) {
                rules = rules.with(r);
            }
        }
        rules
    }

    /// All rules that apply in the state.
    #[tactic(auto, using(crate::proofs::SeenLemmas::loops), unfolding(crate::specs::Systems::applicable))]
    pub fn applicable_rules(&self, state: Vars) -> Active
        ensures { result ≡ applicable self.now state }
    {
        let mut rules = Active::empty();
        for r in 0..self.bridges().len() as u32 {
            if self.is_applicable(r, state) {
                rules = rules.with(r);
            }
        }
        rules
    }

    /// The marks that a repair of the system may have: 2r (removal) for each rule r that is not
    /// `keep`, and 2r+1 (forcing) for each that is not `closed`.
    pub fn allowed(&self) -> Marks
        ensures { result ≡ allowed_marks self.now }
    {
        let mut marks = Marks::empty();
        for (rule, bridge) in self.bridges().iter().enumerate() {
            let removed = 2 * rule as u32;
            marks = with_unless(marks, removed, bridge.keep);
            marks = with_unless(marks, removed + 1, bridge.closed);
        }
        marks
    }
}
