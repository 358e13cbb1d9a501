//! The variables of a system: the beliefs that its bridge rules read, each once.

ghost use Rattle.std.specs.Prelude.{◌≡◌, ◌<◌, ◌≤◌, map, length, IfOk, IfErr, [], ◌∷◌};
ghost use Rattle.std.specs.List.{list_any};
ghost use Rattle.mcs_system.specs.declared.limit.Limit.TheVariants.{Variables};
ghost use Rattle.mcs_system.specs.Gathered.{GathersReads, IsLimitDue, reads_in};
ghost use Rattle.mcs_system.specs.Seen.{read_of, system_of};
ghost use Rattle.mcs_system.specs.Systems.{same_read, context_variables, variables};

use crate::bridge::{Bridge, Read};
use crate::fault::BuildFault;
use crate::knowledge::Context;
use crate::limit::Limit;
use crate::same::same_read;
use std::alloc::Global;

/// Whether the read is the same as one of the others.
pub(crate) fn is_among(others: &[Read], read: &Read) -> bool
    ensures { result ≡ list_any (same_read (read_of read.now)) (map read_of others.now) }
{
    others.iter().any(|other| same_read(read, other))
}

/// Adds the read, if it is of the context and not among those found.
fn add_read(
    alloc: Global,
    read: &Read,
    context: usize,
    found: &mut Vec<Read>,
) -> Result<(), BuildFault>
    ensures { GathersReads (map read_of found.old.items) (map read_of found.new.items)
        (reads_in context (read_of read.now ∷ [])) result }
{
    if read.context as usize != context || is_among(found, read) {
        return Ok(());
    }
    if Limit::Variables.is_exceeded_by(found.len() + 1) {
        return Err(BuildFault::exceeded(Limit::Variables));
    }
    found.push(read.copy(alloc)?)?;
    Ok(())
}

/// Adds those of the reads that are of the context.
fn add_reads(
    alloc: Global,
    reads: &[Read],
    context: usize,
    found: &mut Vec<Read>,
) -> Result<(), BuildFault>
    ensures { GathersReads (map read_of found.old.items) (map read_of found.new.items)
        (reads_in context (map read_of reads.now)) result }
{
    for read in reads {
        add_read(alloc, read, context, found)?;
    }
    Ok(())
}

/// The variables of one context, by first occurrence. Refuses if there are more than the limit.
fn variables_of_context(
    alloc: Global,
    bridges: &[Bridge],
    context: usize,
) -> Result<Vec<Read>, BuildFault>
    ensures variables { IfOk result
        (λ v. map read_of v.items ≡ context_variables (system_of [] bridges.now) context) }
    ensures many { IfErr result
        (IsLimitDue Variables (64 < length (context_variables
        (system_of [] bridges.now) context))) }
{
    let mut found = Vec::new(alloc);
    for bridge in bridges {
        add_reads(alloc, &bridge.pos, context, &mut found)?;
        add_reads(alloc, &bridge.neg, context, &mut found)?;
    }
    Ok(found)
}

/// The variables of the system of these contexts and rules, by context and within a context by
/// first occurrence. Refuses if there are more than the limit.
pub(crate) fn variables_of(
    alloc: Global,
    contexts: &[Context],
    bridges: &[Bridge],
) -> Result<Vec<Read>, BuildFault>
    ensures variables { IfOk result (λ v. map read_of v.items
        ≡ variables (system_of contexts.now bridges.now)) }
    ensures few { IfOk result (λ v. length v.items ≤ 64) }
    ensures many { IfErr result (IsLimitDue Variables
        (64 < length (variables (system_of contexts.now bridges.now)))) }
{
    let mut variables = Vec::new(alloc);
    for context in 0..contexts.len() {
        let mut own = variables_of_context(alloc, bridges, context)?;
        variables.append(&mut own)?;
        if Limit::Variables.is_exceeded_by(variables.len()) {
            return Err(BuildFault::exceeded(Limit::Variables));
        }
    }
    Ok(variables)
}
