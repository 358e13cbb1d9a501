//! What a system keeps that has the contexts of another one and other rules. The contexts have
//! passed their tests, so only the rules are tested, and no knowledge base is read.

ghost use Rattle.std.specs.Prelude.{◌≡◌, IfOk, IfErr, OnOk};
ghost use Rattle.mcs_system.specs.Built.{AreKnown, AreTested, first_flaw, first_limits};
ghost use Rattle.mcs_system.specs.Built.{IsFaultOf, IsGathered, IsSystemKept, last_limits};
ghost use Rattle.mcs_system.specs.Built.{made_of, PassesFirst, PassesVariables};
ghost use Rattle.mcs_system.specs.Faults.{first_exceeded, IsValid};
ghost use Rattle.mcs_system.specs.Seen.{system_of};

use crate::bridge::Bridge;
use crate::build::{first_limit, kept_of, known_reads};
use crate::fault::{BuildFault, Flaw};
use crate::faults::{any_rule_misfit, has_heavy_rule, has_twins, has_unknown_context};
use crate::knowledge::Context;
use crate::known::KnownContexts;
use crate::limit::Limit;
use crate::names::are_named;
use crate::parts::Kept;
use crate::sizes::any_large;
use mcs_base::Memory;
use std::alloc::Global;

/// The first flaw that the contexts have with these rules, if any.
fn first_flaw_of_rules(
    alloc: Global,
    contexts: &[Context],
    bridges: &[Bridge],
) -> Result<Option<Flaw>, Memory>
    requires { AreTested contexts.now }
    ensures { IfOk result (λ flaw. flaw ≡ first_flaw (system_of contexts.now bridges.now)) }
{
    Ok(if has_unknown_context(contexts, bridges) {
        Some(Flaw::UnknownContext)
    } else if has_twins(alloc, bridges)? {
        Some(Flaw::TwinNames)
    } else if any_rule_misfit(contexts, bridges) {
        Some(Flaw::Misfits)
    } else {
        None
    })
}

/// The first limit that is exceeded, among those that come after the limit of atoms. `contexts` are
/// those of the rules.
fn last_limit_of_rules(contexts: &[Context], bridges: &[Bridge]) -> Option<Limit>
    requires { AreTested contexts.now }
    ensures { result ≡ first_exceeded (system_of contexts.now bridges.now) last_limits }
{
    if has_heavy_rule(bridges) {
        Some(Limit::Weight)
    } else if any_large(bridges) {
        Some(Limit::FormulaSize)
    } else {
        None
    }
}

/// Tests whether the contexts have a flaw with these rules, or exceed a limit that comes before the
/// limit of variables.
fn pass_first_with(
    alloc: Global,
    contexts: &[Context],
    bridges: &[Bridge],
) -> Result<(), BuildFault>
    requires { AreTested contexts.now }
    ensures ok { OnOk result (PassesFirst (system_of contexts.now bridges.now)) }
    ensures fault { IfErr result (IsFaultOf (system_of contexts.now bridges.now)) }
{
    if let Some(flaw) = first_flaw_of_rules(alloc, contexts, bridges)? {
        return Err(BuildFault::flawed(flaw));
    }
    if let Some(limit) = first_limit(contexts, bridges) {
        return Err(BuildFault::exceeded(limit));
    }
    Ok(())
}

/// Tests whether the contexts and these rules, which have no earlier fault, exceed a limit that comes
/// after the limit of atoms.
fn pass_last_with(contexts: &[Context], bridges: &[Bridge]) -> Result<(), BuildFault>
    requires tested { AreTested contexts.now }
    requires passes { PassesVariables (system_of contexts.now bridges.now) }
    ensures ok { OnOk result (IsValid (system_of contexts.now bridges.now)) }
    ensures fault { IfErr result (IsFaultOf (system_of contexts.now bridges.now)) }
{
    if let Some(limit) = last_limit_of_rules(contexts, bridges) {
        return Err(BuildFault::exceeded(limit));
    }
    Ok(())
}

/// What a system of these contexts and rules keeps, if they have no flaw and keep the limits that
/// come before the limit of variables. Refuses if a limit that is counted over variables is
/// exceeded.
fn gather_again(
    alloc: Global,
    contexts: &KnownContexts,
    bridges: &[Bridge],
) -> Result<Kept, BuildFault>
    requires known { AreKnown contexts.now }
    requires first { PassesFirst (made_of contexts.now bridges.now) }
    ensures ok { IfOk result (IsGathered contexts.now bridges.now) }
    ensures fault { IfErr result (IsFaultOf (made_of contexts.now bridges.now)) }
{
    let reads = known_reads(alloc, &contexts.items, bridges)?;
    kept_of(alloc, contexts, bridges, reads)
}

/// What a system of these contexts and rules keeps, or the first of their faults.
pub(crate) fn keep_again(
    alloc: Global,
    contexts: &KnownContexts,
    bridges: &[Bridge],
) -> Result<Kept, BuildFault>
    requires { AreKnown contexts.now }
    ensures ok { IfOk result (IsSystemKept contexts.now bridges.now) }
    ensures fault { IfErr result (IsFaultOf (made_of contexts.now bridges.now)) }
{
    pass_first_with(alloc, &contexts.items, bridges)?;
    let kept = gather_again(alloc, contexts, bridges)?;
    pass_last_with(&contexts.items, bridges)?;
    are_named(bridges);
    Ok(kept)
}

/// What a system of these contexts and rules keeps, if they have none of the faults.
pub(crate) fn keep_valid_again(
    alloc: Global,
    contexts: &KnownContexts,
    bridges: &[Bridge],
) -> Result<Kept, Memory>
    requires known { AreKnown contexts.now }
    requires valid { IsValid (made_of contexts.now bridges.now) }
    ensures { IfOk result (IsSystemKept contexts.now bridges.now) }
{
    are_named(bridges);
    match gather_again(alloc, contexts, bridges) {
        Ok(kept) => Ok(kept),
        Err(BuildFault::Memory) => Err(Memory),
        Err(BuildFault::Fault { .. }) => unreachable!(),
    }
}
