//! What a context has by the rules of a system: what the rules into it read, and its atoms.

ghost use Rattle.std.specs.Prelude.{◌<◌, ◌≤◌, [], ◌∷◌, IfOk, IsTrue, OnOk, length, map};
ghost use Rattle.std.specs.List.{flat_map};
ghost use Rattle.mcs_system.specs.Faults.{reads_of};
ghost use Rattle.mcs_system.specs.Seen.{bridge_of, read_of};
ghost use Rattle.mcs_script.specs.Found.{AreFound, FindsMore, IsShare};

use crate::found::{find_atoms_by, find_inputs_by, find_names, find_reads_of};
use mcs_base::Memory;
use mcs_system::{Bridge, Limit, Name, Read, System};
use std::alloc::Global;

/// What is found of a context: the reads of the rules into it, and its atoms, each once. There may
/// be more of them than the context has.
#[derive(Drop)]
pub(crate) struct Share {
    pub inputs: Vec<Read>,
    pub atoms: Vec<Name>,
}

impl Share {
    /// Whether by what was found the context exceeds no limit.
    pub fn is_within(&self) -> bool
        ensures { IsTrue result →
            (length self.now.inputs.items ≤ 16) × (length self.now.atoms.items ≤ 64) }
    {
        self.inputs.len() <= Limit::InputsPerContext.most()
            && self.atoms.len() <= Limit::AtomsPerContext.most()
    }
}

/// Adds what the context has by the rule.
pub(crate) fn find_more(
    alloc: Global,
    context: u32,
    rule: &Bridge,
    share: &mut Share,
) -> Result<(), Memory>
    ensures { OnOk result (FindsMore context (bridge_of rule.now ∷ []) share.old share.new) }
{
    find_inputs_by(alloc, context, rule, &mut share.inputs)?;
    find_atoms_by(alloc, context, rule, &mut share.atoms)
}

/// Adds what the context has by the rules.
fn find_all(alloc: Global, context: u32, rules: &[Bridge], share: &mut Share) -> Result<(), Memory>
    ensures { OnOk result (FindsMore context (map bridge_of rules.now) share.old share.new) }
{
    for rule in rules {
        find_more(alloc, context, rule, share)?;
    }
    Ok(())
}

/// What a context of the system would have by these rules. The system's own rules add to what is
/// found.
pub(crate) fn share_of(
    alloc: Global,
    bare: &System,
    context: u32,
    rules: &[Bridge],
) -> Result<Share, Memory>
    requires { context < length bare.now.contexts }
    ensures { IfOk result (IsShare context bare.now.contexts (map bridge_of rules.now)) }
{
    let mut atoms = Vec::new(alloc);
    find_names(alloc, bare.atoms_of(context), &mut atoms)?;
    let mut share = Share {
        inputs: Vec::new(alloc),
        atoms,
    };
    find_all(alloc, context, rules, &mut share)?;
    Ok(share)
}

/// What the rules read.
pub(crate) fn reads_of(alloc: Global, rules: &[Bridge]) -> Result<Vec<Read>, Memory>
    ensures { IfOk result (λ found. AreFound (flat_map reads_of (map bridge_of rules.now))
        (map read_of found.items)) }
{
    let mut found = Vec::new(alloc);
    for rule in rules {
        find_reads_of(alloc, rule, &mut found)?;
    }
    Ok(found)
}
