//! What a system keeps of its contexts and bridge rules, or the first of their faults in the order
//! of their numbers.

ghost use Rattle.std.specs.Prelude.{◌≡◌, IfOk, IfErr, OnOk};
ghost use Rattle.mcs_system.specs.Built.{first_flaw, first_limits, last_limits, IsFaultOf};
ghost use Rattle.mcs_system.specs.Built.{AreFewReads, AreOwnAtoms, IsBuiltOf, IsGathered};
ghost use Rattle.mcs_system.specs.Built.{IsSystemOf, made_of, PassesFirst, PassesVariables};
ghost use Rattle.mcs_system.specs.Faults.{first_exceeded, IsValid};
ghost use Rattle.mcs_system.specs.Seen.{system_of};

use crate::bridge::Bridge;
use crate::fault::{BuildFault, Flaw};
use crate::faults::{
    has_crowded_context, has_heavy_rule, has_large_formula, has_many_defaults, has_many_items,
    has_misfits, has_twin_names, has_unknown_context,
};
use crate::knowledge::Context;
use crate::known::KnownContexts;
use crate::limit::Limit;
use crate::names::system_is_named;
use crate::parts::{Kept, KnownReads, has_many_inputs, parts_of_contexts, rule_reads};
use crate::variables::variables_of;
use mcs_base::Memory;
use std::alloc::Global;

/// The first flaw that the contexts and rules have, if any.
fn first_flaw(
    alloc: Global,
    contexts: &[Context],
    bridges: &[Bridge],
) -> Result<Option<Flaw>, Memory>
    ensures { IfOk result (λ flaw. flaw ≡ first_flaw (system_of contexts.now bridges.now)) }
{
    Ok(if has_unknown_context(contexts, bridges) {
        Some(Flaw::UnknownContext)
    } else if has_twin_names(alloc, contexts, bridges)? {
        Some(Flaw::TwinNames)
    } else if has_misfits(contexts, bridges) {
        Some(Flaw::Misfits)
    } else {
        None
    })
}

/// The first limit that is exceeded, among those that come before the limit of variables.
#[tactic(auto, unfolding(crate::specs::Faults::exceeds))]
pub(crate) fn first_limit(contexts: &[Context], bridges: &[Bridge]) -> Option<Limit>
    ensures { result ≡ first_exceeded (system_of contexts.now bridges.now) first_limits }
{
    if Limit::Contexts.is_exceeded_by(contexts.len()) {
        Some(Limit::Contexts)
    } else if Limit::Bridges.is_exceeded_by(bridges.len()) {
        Some(Limit::Bridges)
    } else if has_crowded_context(contexts, bridges) {
        Some(Limit::RulesPerContext)
    } else {
        None
    }
}

/// The first limit that is exceeded, among those that come after the limit of atoms.
fn last_limit(contexts: &[Context], bridges: &[Bridge]) -> Option<Limit>
    ensures { result ≡ first_exceeded (system_of contexts.now bridges.now) last_limits }
{
    if has_many_defaults(contexts) {
        Some(Limit::DefaultsPerContext)
    } else if has_many_items(contexts) {
        Some(Limit::ItemsPerContext)
    } else if has_heavy_rule(bridges) {
        Some(Limit::Weight)
    } else if has_large_formula(contexts, bridges) {
        Some(Limit::FormulaSize)
    } else {
        None
    }
}

/// Tests whether the contexts and rules have a flaw, or exceed a limit that comes before the limit of
/// variables.
fn pass_first(alloc: Global, contexts: &[Context], bridges: &[Bridge]) -> Result<(), BuildFault>
    ensures ok { OnOk result (PassesFirst (system_of contexts.now bridges.now)) }
    ensures fault { IfErr result (IsFaultOf (system_of contexts.now bridges.now)) }
{
    if let Some(flaw) = first_flaw(alloc, contexts, bridges)? {
        return Err(BuildFault::flawed(flaw));
    }
    if let Some(limit) = first_limit(contexts, bridges) {
        return Err(BuildFault::exceeded(limit));
    }
    Ok(())
}

/// Tests whether the contexts and rules, which have no earlier fault, exceed a limit that comes after
/// the limit of atoms.
fn pass_last(contexts: &[Context], bridges: &[Bridge]) -> Result<(), BuildFault>
    requires { PassesVariables (system_of contexts.now bridges.now) }
    ensures ok { OnOk result (IsValid (system_of contexts.now bridges.now)) }
    ensures fault { IfErr result (IsFaultOf (system_of contexts.now bridges.now)) }
{
    if let Some(limit) = last_limit(contexts, bridges) {
        return Err(BuildFault::exceeded(limit));
    }
    Ok(())
}

/// What these rules read. Refuses if there are too many variables, in all or among what rules into
/// one context read.
pub(crate) fn known_reads(
    alloc: Global,
    contexts: &[Context],
    bridges: &[Bridge],
) -> Result<KnownReads, BuildFault>
    requires { PassesFirst (system_of contexts.now bridges.now) }
    ensures ok { IfOk result (AreFewReads (system_of contexts.now bridges.now)) }
    ensures fault { IfErr result (IsFaultOf (system_of contexts.now bridges.now)) }
{
    let variables = variables_of(alloc, contexts, bridges)?;
    let rules = rule_reads(alloc, &variables, bridges)?;
    if has_many_inputs(contexts, bridges, &rules) {
        return Err(BuildFault::exceeded(Limit::InputsPerContext));
    }
    Ok(KnownReads { variables, rules })
}

/// What a system of these contexts and rules keeps. Refuses if a context has more atoms than the
/// limit.
pub(crate) fn kept_of(
    alloc: Global,
    contexts: &KnownContexts,
    bridges: &[Bridge],
    reads: KnownReads,
) -> Result<Kept, BuildFault>
    requires own { AreOwnAtoms contexts.now.items.items contexts.now.atoms.items }
    requires first { PassesFirst (made_of contexts.now bridges.now) }
    requires reads { AreFewReads (made_of contexts.now bridges.now) reads }
    ensures ok { IfOk result (IsGathered contexts.now bridges.now) }
    ensures fault { IfErr result (IsFaultOf (made_of contexts.now bridges.now)) }
{
    let parts = parts_of_contexts(alloc, contexts, bridges, &reads)?;
    let KnownReads { variables, rules } = reads;
    Ok(Kept {
        variables,
        parts,
        reads: rules,
    })
}

/// What is known of the contexts of a system, and what it keeps beside them and its rules.
#[derive(Drop)]
pub(crate) struct Built {
    pub contexts: KnownContexts,
    pub kept: Kept,
}

/// What a system of these contexts and rules keeps, if they have no flaw and keep the limits that
/// come before the limit of variables. Refuses if a limit that is counted over variables is
/// exceeded.
fn gather(alloc: Global, contexts: Vec<Context>, bridges: &[Bridge]) -> Result<Built, BuildFault>
    requires { PassesFirst (system_of contexts.items bridges.now) }
    ensures ok { IfOk result (IsBuiltOf contexts.items bridges.now) }
    ensures fault { IfErr result (IsFaultOf (system_of contexts.items bridges.now)) }
{
    let reads = known_reads(alloc, &contexts, bridges)?;
    let contexts = KnownContexts::of(alloc, contexts)?;
    let kept = kept_of(alloc, &contexts, bridges, reads)?;
    Ok(Built { contexts, kept })
}

/// What a system of these contexts and rules keeps, or the first of their faults.
pub(crate) fn keep(
    alloc: Global,
    contexts: Vec<Context>,
    bridges: &[Bridge],
) -> Result<Built, BuildFault>
    ensures ok { IfOk result (IsSystemOf contexts.items bridges.now) }
    ensures fault { IfErr result (IsFaultOf (system_of contexts.items bridges.now)) }
{
    pass_first(alloc, &contexts, bridges)?;
    let built = gather(alloc, contexts, bridges)?;
    pass_last(&built.contexts.items, bridges)?;
    system_is_named(&built.contexts.items, bridges);
    Ok(built)
}

/// What a system of these contexts and rules keeps, if they have none of the faults.
pub(crate) fn keep_valid(
    alloc: Global,
    contexts: Vec<Context>,
    bridges: &[Bridge],
) -> Result<Built, Memory>
    requires { IsValid (system_of contexts.items bridges.now) }
    ensures { IfOk result (IsSystemOf contexts.items bridges.now) }
{
    system_is_named(&contexts, bridges);
    match gather(alloc, contexts, bridges) {
        Ok(built) => Ok(built),
        Err(BuildFault::Memory) => Err(Memory),
        Err(BuildFault::Fault { .. }) => unreachable!(),
    }
}
