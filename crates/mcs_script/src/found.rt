//! Walks that find what bridge rules read, and the atoms of formulas, each once. They stop looking
//! once they have found more than the most variables or atoms that a system may have.

ghost use Rattle.std.specs.Prelude.{◌≡◌, [], ◌∷◌, OnOk, map};
ghost use Rattle.std.specs.List.{flat_map, list_any};
ghost use Rattle.mcs_system.specs.Faults.{reads_of};
ghost use Rattle.mcs_system.specs.Gathered.{belief_atoms, head_atoms};
ghost use Rattle.mcs_system.specs.Logic.{atoms, is_in};
ghost use Rattle.mcs_system.specs.Seen.{bridge_of, formula_of, read_of};
ghost use Rattle.mcs_system.specs.Systems.{same_read};
ghost use Rattle.mcs_script.specs.Found.{Finds, atoms_by, inputs_by};

use mcs_base::Memory;
use mcs_system::{Bridge, Formula, Name, Read, same_read};
use std::alloc::Global;

/// After more than this nothing is looked for: no system has more variables, and no context more
/// atoms.
const MOST: usize = 64;

/// Whether the name is among those found.
fn is_name_found(found: &[Name], name: &Name) -> bool
    ensures { result ≡ is_in name.now found.now }
{
    found.iter().any(|other| name.is(other))
}

/// Adds the name, unless it is found.
fn find_name(alloc: Global, name: &Name, found: &mut Vec<Name>) -> Result<(), Memory>
    ensures { OnOk result (Finds found.old.items found.new.items (name.now ∷ [])) }
{
    if found.len() > MOST {
        return Ok(());
    }
    if is_name_found(found, name) {
        return Ok(());
    }
    found.push(name.copy(alloc)?)?;
    Ok(())
}

/// Adds the names that are not found.
pub(crate) fn find_names(alloc: Global, names: &[Name], found: &mut Vec<Name>) -> Result<(), Memory>
    ensures { OnOk result (Finds found.old.items found.new.items names.now) }
{
    for name in names {
        find_name(alloc, name, found)?;
    }
    Ok(())
}

/// Adds the atoms of the formula that are not found.
fn find_atoms(alloc: Global, formula: &Formula, found: &mut Vec<Name>) -> Result<(), Memory>
    ensures { OnOk result
        (Finds found.old.items found.new.items (atoms (formula_of formula.now))) }
{
    match formula {
        Formula::True | Formula::False => Ok(()),
        Formula::Atom(name) => find_name(alloc, name, found),
        Formula::Not(g) => find_atoms(alloc, g, found),
        Formula::And(g, h) | Formula::Or(g, h) | Formula::Implies(g, h) | Formula::Iff(g, h) => {
            find_atoms(alloc, g, found)?;
            find_atoms(alloc, h, found)
        }
    }
}

/// Adds the atoms of the belief, if it belongs to the context.
fn find_belief(
    alloc: Global,
    context: u32,
    read: &Read,
    found: &mut Vec<Name>,
) -> Result<(), Memory>
    ensures { OnOk result
        (Finds found.old.items found.new.items (belief_atoms context (read_of read.now))) }
{
    if read.context == context {
        find_atoms(alloc, &read.belief, found)
    } else {
        Ok(())
    }
}

/// Adds the atoms of those beliefs that belong to the context.
fn find_beliefs(
    alloc: Global,
    context: u32,
    reads: &[Read],
    found: &mut Vec<Name>,
) -> Result<(), Memory>
    ensures { OnOk result (Finds found.old.items found.new.items
        (flat_map (belief_atoms context) (map read_of reads.now))) }
{
    for read in reads {
        find_belief(alloc, context, read, found)?;
    }
    Ok(())
}

/// Adds the atoms of the rule's head, if it goes into the context.
fn find_head(
    alloc: Global,
    context: u32,
    rule: &Bridge,
    found: &mut Vec<Name>,
) -> Result<(), Memory>
    ensures { OnOk result
        (Finds found.old.items found.new.items (head_atoms context (bridge_of rule.now))) }
{
    if rule.target == context {
        find_atoms(alloc, &rule.head, found)
    } else {
        Ok(())
    }
}

/// Adds the atoms that the context has by the rule.
pub(crate) fn find_atoms_by(
    alloc: Global,
    context: u32,
    rule: &Bridge,
    found: &mut Vec<Name>,
) -> Result<(), Memory>
    ensures { OnOk result
        (Finds found.old.items found.new.items (atoms_by context (bridge_of rule.now))) }
{
    find_head(alloc, context, rule, found)?;
    find_beliefs(alloc, context, &rule.pos, found)?;
    find_beliefs(alloc, context, &rule.neg, found)
}

/// Whether the read is among those found.
fn is_read_found(found: &[Read], read: &Read) -> bool
    ensures { result ≡ list_any (same_read (read_of read.now)) (map read_of found.now) }
{
    found.iter().any(|other| same_read(read, other))
}

/// Adds the read, unless it is found.
fn find_read(alloc: Global, read: &Read, found: &mut Vec<Read>) -> Result<(), Memory>
    ensures { OnOk result (Finds (map read_of found.old.items) (map read_of found.new.items)
        (read_of read.now ∷ [])) }
{
    if found.len() > MOST {
        return Ok(());
    }
    if is_read_found(found, read) {
        return Ok(());
    }
    found.push(read.copy(alloc)?)?;
    Ok(())
}

/// Adds the reads that are not found.
fn find_reads(alloc: Global, reads: &[Read], found: &mut Vec<Read>) -> Result<(), Memory>
    ensures { OnOk result (Finds (map read_of found.old.items) (map read_of found.new.items)
        (map read_of reads.now)) }
{
    for read in reads {
        find_read(alloc, read, found)?;
    }
    Ok(())
}

/// Adds the reads of the rule.
pub(crate) fn find_reads_of(
    alloc: Global,
    rule: &Bridge,
    found: &mut Vec<Read>,
) -> Result<(), Memory>
    ensures { OnOk result (Finds (map read_of found.old.items) (map read_of found.new.items)
        (reads_of (bridge_of rule.now))) }
{
    find_reads(alloc, &rule.pos, found)?;
    find_reads(alloc, &rule.neg, found)
}

/// Adds the reads of the rule, if it goes into the context.
pub(crate) fn find_inputs_by(
    alloc: Global,
    context: u32,
    rule: &Bridge,
    found: &mut Vec<Read>,
) -> Result<(), Memory>
    ensures { OnOk result (Finds (map read_of found.old.items) (map read_of found.new.items)
        (inputs_by context (bridge_of rule.now))) }
{
    if rule.target == context {
        find_reads_of(alloc, rule, found)
    } else {
        Ok(())
    }
}
