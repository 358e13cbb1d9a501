//! What a system keeps of its contexts and rules, so that later calls need not compare formulas
//! again.

ghost use Rattle.std.specs.Prelude.{◌≡◌, ◌≤◌, ◌<◌, List, map, length, true, false, IfOk, IfErr};
ghost use Rattle.std.specs.List.{range_with_len};
ghost use Rattle.mcs_system.specs.declared.knowledge.Context.{Context};
ghost use Rattle.mcs_system.specs.declared.limit.Limit.TheVariants.{InputsPerContext};
ghost use Rattle.mcs_system.specs.declared.limit.Limit.TheVariants.{AtomsPerContext};
ghost use Rattle.mcs_system.specs.Atoms.{atoms_of};
ghost use Rattle.mcs_system.specs.Built.{AreKnownReads, AreOwnAtoms, made_of};
ghost use Rattle.mcs_system.specs.Faults.{exceeds};
ghost use Rattle.mcs_system.specs.Gathered.{IsLimitDue};
ghost use Rattle.mcs_system.specs.Imports.{rules_into};
ghost use Rattle.mcs_system.specs.Parts.{context_part, context_part_of, variables_among};
ghost use Rattle.mcs_system.specs.Parts.{inputs_among, variables_read, read_into, rule_part};
ghost use Rattle.mcs_system.specs.Parts.{rule_part_of};
ghost use Rattle.mcs_system.specs.Plain as plain;
ghost use Rattle.mcs_system.specs.Seen.{read_of, bridge_of, system_of};
ghost use Rattle.mcs_system.specs.Systems.{variables};

use crate::atoms::atoms_of;
use crate::bridge::{Bridge, Read};
use crate::fault::BuildFault;
use crate::knowledge::Context;
use crate::known::KnownContexts;
use crate::limit::Limit;
use crate::name::Name;
use crate::variables::is_among;
use mcs_base::{Active, Memory, Vars};
use std::alloc::Global;

/// What is kept of a context: its atoms, its variables, the variables that rules into it read, and
/// these rules.
#[derive(Drop)]
pub(crate) struct ContextParts {
    pub atoms: Vec<Name>,
    pub variables: Vars,
    pub inputs: Vars,
    pub rules: Active,
}

/// What is kept of a rule: the variables that it reads positively, and those that it reads
/// negatively.
#[derive(Drop)]
pub(crate) struct RuleReads {
    pub positive: Vars,
    pub negative: Vars,
}

/// What the rules of a system read: its variables, and those of each rule.
#[derive(Drop)]
pub(crate) struct KnownReads {
    pub variables: Vec<Read>,
    pub rules: Vec<RuleReads>,
}

/// What a system keeps beside its contexts and rules: its variables, and the parts of each context
/// and of each rule.
#[derive(Drop)]
pub(crate) struct Kept {
    pub variables: Vec<Read>,
    pub parts: Vec<ContextParts>,
    pub reads: Vec<RuleReads>,
}

/// Those of the variables that are among the reads.
#[tactic(auto, using(crate::proofs::SeenLemmas::loops), unfolding(crate::specs::Parts::variables_read))]
fn variables_read(known: &[Read], reads: &[Read]) -> Vars
    requires { length known.now ≤ 64 }
    ensures { result ≡ variables_read (map read_of known.now) (map read_of reads.now) }
{
    let mut set = Vars::empty();
    for (v, variable) in known.iter().enumerate() {
        if is_among(reads, variable) {
            set = set.with(v as u32);
        }
    }
    set
}

/// Those of the variables that belong to the context.
#[tactic(auto, using(crate::proofs::SeenLemmas::loops), unfolding(crate::specs::Parts::variables_among))]
fn variables_among(known: &[Read], context: u32) -> Vars
    requires { length known.now ≤ 64 }
    ensures { result ≡ variables_among (map read_of known.now) context }
{
    let mut set = Vars::empty();
    for (v, variable) in known.iter().enumerate() {
        if variable.context == context {
            set = set.with(v as u32);
        }
    }
    set
}

/// The rules into the context.
#[tactic(auto, using(crate::proofs::SeenLemmas::loops), unfolding(crate::specs::Imports::rules_into))]
fn rules_into(bridges: &[Bridge], context: u32) -> Active
    requires { length bridges.now ≤ 64 }
    ensures { (contexts : List Context)
        → result ≡ rules_into (system_of contexts bridges.now) context }
{
    let mut set = Active::empty();
    for (k, bridge) in bridges.iter().enumerate() {
        if bridge.target == context {
            set = set.with(k as u32);
        }
    }
    set
}

/// What is kept of the rules.
pub(crate) fn rule_reads(
    alloc: Global,
    known: &[Read],
    bridges: &[Bridge],
) -> Result<Vec<RuleReads>, Memory>
    requires { length known.now ≤ 64 }
    ensures { IfOk result
        (λ reads. map rule_part_of reads.items
        ≡ map (rule_part (map read_of known.now)) (map bridge_of bridges.now)) }
{
    let mut reads = Vec::new(alloc);
    for bridge in bridges {
        reads.push(RuleReads {
            positive: variables_read(known, &bridge.pos),
            negative: variables_read(known, &bridge.neg),
        })?;
    }
    Ok(reads)
}

/// The variables that the rule reads, if it goes into the context; otherwise none. `reads` are those
/// of the rule.
fn read_into(reads: &RuleReads, bridge: &Bridge, context: u32) -> Vars
    ensures { (vs : List plain.Read) → rule_part_of reads.now ≡ rule_part vs (bridge_of bridge.now)
        → result ≡ read_into vs context (bridge_of bridge.now) }
{
    if bridge.target == context {
        reads.positive.union(reads.negative)
    } else {
        Vars::empty()
    }
}

/// The variables that rules into the context read. `reads` are those of the rules.
fn inputs_among(reads: &[RuleReads], bridges: &[Bridge], context: u32) -> Vars
    requires { length reads.now ≡ length bridges.now }
    ensures { (vs : List plain.Read)
        → map rule_part_of reads.now ≡ map (rule_part vs) (map bridge_of bridges.now)
        → result ≡ inputs_among vs (map bridge_of bridges.now) context }
{
    let mut inputs = Vars::empty();
    for (k, bridge) in bridges.iter().enumerate() {
        inputs = inputs.union(read_into(&reads[k], bridge, context));
    }
    inputs
}

/// Whether the rules into one context read more variables than the limit. `reads` are those of the
/// rules.
pub(crate) fn has_many_inputs(contexts: &[Context], bridges: &[Bridge], reads: &[RuleReads]) -> bool
    requires few_contexts { length contexts.now ≤ 64 }
    requires reads { map rule_part_of reads.now
        ≡ map (rule_part (variables (system_of contexts.now bridges.now)))
        (map bridge_of bridges.now) }
    ensures { result ≡ exceeds (system_of contexts.now bridges.now) InputsPerContext }
{
    for context in 0..contexts.len() as u32 {
        if Limit::InputsPerContext.is_exceeded_by(
            inputs_among(reads, bridges, context).count() as usize,
        ) {
            return true;
        }
    }
    false
}

/// What is kept of one context. `known` is what the rules read. Refuses if the context has
/// more atoms than the limit.
fn parts_of_context(
    alloc: Global,
    contexts: &KnownContexts,
    bridges: &[Bridge],
    known: &KnownReads,
    context: u32,
) -> Result<ContextParts, BuildFault>
    requires in_range { context < length contexts.now.items.items }
    requires own { AreOwnAtoms contexts.now.items.items contexts.now.atoms.items }
    requires few_rules { length bridges.now ≤ 64 }
    requires known { AreKnownReads (made_of contexts.now bridges.now) known.now }
    ensures parts { IfOk result
        (λ p. context_part_of p ≡ context_part (made_of contexts.now bridges.now) context) }
    ensures few { IfOk result (λ p. length p.atoms.items ≤ 64) }
    ensures many { IfErr result
        (IsLimitDue AtomsPerContext (64 < length (atoms_of
        (made_of contexts.now bridges.now) context))) }
{
    let atoms = atoms_of(alloc, contexts, bridges, &known.variables, context)?;
    Ok(ContextParts {
        atoms,
        variables: variables_among(&known.variables, context),
        inputs: inputs_among(&known.rules, bridges, context),
        rules: rules_into(bridges, context),
    })
}

/// What is kept of the contexts. `known` is what the rules read. Refuses if a context has
/// more atoms than the limit.
pub(crate) fn parts_of_contexts(
    alloc: Global,
    contexts: &KnownContexts,
    bridges: &[Bridge],
    known: &KnownReads,
) -> Result<Vec<ContextParts>, BuildFault>
    requires few_contexts { length contexts.now.items.items ≤ 64 }
    requires own { AreOwnAtoms contexts.now.items.items contexts.now.atoms.items }
    requires few_rules { length bridges.now ≤ 64 }
    requires known { AreKnownReads (made_of contexts.now bridges.now) known.now }
    ensures parts { IfOk result
        (λ parts. map context_part_of parts.items
        ≡ map (context_part (made_of contexts.now bridges.now))
        (range_with_len 0 (length contexts.now.items.items))) }
    ensures few { IfOk result (λ _. exceeds (made_of contexts.now bridges.now) AtomsPerContext
        ≡ false) }
    ensures many { IfErr result
        (IsLimitDue AtomsPerContext (exceeds (made_of contexts.now bridges.now) AtomsPerContext
        ≡ true)) }
{
    let mut parts = Vec::new(alloc);
    for context in 0..contexts.items.len() as u32 {
        let own = parts_of_context(alloc, contexts, bridges, known, context)?;
        parts.push(own)?;
    }
    Ok(parts)
}
