//! The atoms of a context: those of its items, of the heads of the rules into it, and of its
//! variables.

ghost use Rattle.std.specs.Prelude.{◌≡◌, ◌<◌, ◌≤◌, List, map, length, IfOk, IfErr, [], ◌∷◌};
ghost use Rattle.std.specs.List.{flat_map};
ghost use Rattle.mcs_system.specs.declared.limit.Limit.TheVariants.{AtomsPerContext};
ghost use Rattle.mcs_system.specs.Atoms.{item_atoms, rule_atoms, kb_atoms, first_names, atoms_of};
ghost use Rattle.mcs_system.specs.Built.{AreOwnAtoms, IsOwnAtoms, made_of};
ghost use Rattle.mcs_system.specs.Gathered.{GathersNames, IsLimitDue, head_atoms, belief_atoms};
ghost use Rattle.mcs_system.specs.Logic.{is_in, atoms};
ghost use Rattle.mcs_system.specs.Plain as plain;
ghost use Rattle.mcs_system.specs.Plain.{Name};
ghost use Rattle.mcs_system.specs.Seen.{formula_of, rule_of, item_of, kb_of, read_of, bridge_of};
ghost use Rattle.mcs_system.specs.Systems.{variables};

use crate::bridge::{Bridge, Read};
use crate::copied::copy_each;
use crate::fault::BuildFault;
use crate::formula::Formula;
use crate::knowledge::{Kb, ProgRule, TheoryItem};
use crate::known::KnownContexts;
use crate::limit::Limit;
use crate::name::Name;
use std::alloc::Global;

/// A part of a system in which atoms occur.
pub(crate) trait HasAtoms {
    ghost Seen: { Type 0 };

    ghost seen: { Self → Self.Seen };

    ghost atoms: { Self.Seen → List Name };

    /// Adds the atoms that are not in `found` yet. Refuses if there are more than the limit.
    fn add_atoms(&self, alloc: Global, found: &mut Vec<Name>) -> Result<(), BuildFault>
        ensures { GathersNames found.old.items found.new.items (Self.atoms (Self.seen self.now))
            result };
}

/// Adds the atoms of each part.
pub(crate) fn add_each<T: HasAtoms>(
    alloc: Global,
    parts: &[T],
    found: &mut Vec<Name>,
) -> Result<(), BuildFault>
    ensures { GathersNames found.old.items found.new.items
        (flat_map T.atoms (map T.seen parts.now)) result }
{
    for part in parts {
        part.add_atoms(alloc, found)?;
    }
    Ok(())
}

/// Whether the name is among those found.
fn is_found(found: &[Name], name: &Name) -> bool
    ensures { result ≡ is_in name.now found.now }
{
    found.iter().any(|other| name.is(other))
}

impl HasAtoms for Name {
    ghost Seen = { Name };

    ghost seen = { λ n. n };

    ghost atoms = { λ n. n ∷ [] };

    fn add_atoms(&self, alloc: Global, found: &mut Vec<Name>) -> Result<(), BuildFault> {
        if is_found(found, self) {
            return Ok(());
        }
        if Limit::AtomsPerContext.is_exceeded_by(found.len() + 1) {
            return Err(BuildFault::exceeded(Limit::AtomsPerContext));
        }
        found.push(self.copy(alloc)?)?;
        Ok(())
    }
}

impl HasAtoms for Formula {
    ghost Seen = { plain.Formula };

    ghost seen = { formula_of };

    ghost atoms = { atoms };

    fn add_atoms(&self, alloc: Global, found: &mut Vec<Name>) -> Result<(), BuildFault> {
        match self {
            Formula::True | Formula::False => Ok(()),
            Formula::Atom(name) => name.add_atoms(alloc, found),
            Formula::Not(g) => g.add_atoms(alloc, found),
            Formula::And(g, h) | Formula::Or(g, h) | Formula::Implies(g, h) | Formula::Iff(g, h) =>
                {
                    g.add_atoms(alloc, found)?;
                    h.add_atoms(alloc, found)
                }
        }
    }
}

impl HasAtoms for TheoryItem {
    ghost Seen = { plain.Item };

    ghost seen = { item_of };

    ghost atoms = { item_atoms };

    fn add_atoms(&self, alloc: Global, found: &mut Vec<Name>) -> Result<(), BuildFault> {
        match self {
            TheoryItem::Fact(formula) => formula.add_atoms(alloc, found),
            TheoryItem::Rule(default) => {
                default.pre.add_atoms(alloc, found)?;
                add_each(alloc, &default.justs, found)?;
                default.conclusion.add_atoms(alloc, found)
            }
        }
    }
}

impl HasAtoms for ProgRule {
    ghost Seen = { plain.ProgramRule };

    ghost seen = { rule_of };

    ghost atoms = { rule_atoms };

    fn add_atoms(&self, alloc: Global, found: &mut Vec<Name>) -> Result<(), BuildFault> {
        add_each(alloc, &self.head, found)?;
        add_each(alloc, &self.pos, found)?;
        add_each(alloc, &self.neg, found)
    }
}

/// Adds the atoms of the rule's head, if it goes into the context.
fn add_head(
    alloc: Global,
    bridge: &Bridge,
    context: u32,
    found: &mut Vec<Name>,
) -> Result<(), BuildFault>
    ensures { GathersNames found.old.items found.new.items
        (head_atoms context (bridge_of bridge.now)) result }
{
    if bridge.target == context {
        bridge.head.add_atoms(alloc, found)
    } else {
        Ok(())
    }
}

/// Adds the atoms of the heads of the rules into the context.
fn add_heads(
    alloc: Global,
    bridges: &[Bridge],
    context: u32,
    found: &mut Vec<Name>,
) -> Result<(), BuildFault>
    ensures { GathersNames found.old.items found.new.items
        (flat_map (head_atoms context) (map bridge_of bridges.now)) result }
{
    for bridge in bridges {
        add_head(alloc, bridge, context, found)?;
    }
    Ok(())
}

/// Adds the atoms of the belief, if it belongs to the context.
fn add_belief(
    alloc: Global,
    read: &Read,
    context: u32,
    found: &mut Vec<Name>,
) -> Result<(), BuildFault>
    ensures { GathersNames found.old.items found.new.items
        (belief_atoms context (read_of read.now)) result }
{
    if read.context == context {
        read.belief.add_atoms(alloc, found)
    } else {
        Ok(())
    }
}

/// Adds the atoms of the beliefs that belong to the context.
fn add_beliefs(
    alloc: Global,
    reads: &[Read],
    context: u32,
    found: &mut Vec<Name>,
) -> Result<(), BuildFault>
    ensures { GathersNames found.old.items found.new.items
        (flat_map (belief_atoms context) (map read_of reads.now)) result }
{
    for read in reads {
        add_belief(alloc, read, context, found)?;
    }
    Ok(())
}

/// The atoms of the items of a knowledge base, by first occurrence. Refuses if there are more than
/// the limit.
pub(crate) fn own_atoms(alloc: Global, kb: &Kb) -> Result<Vec<Name>, BuildFault>
    ensures own { IfOk result (λ v. IsOwnAtoms (kb_of kb.now) v.items) }
    ensures many { IfErr result (IsLimitDue AtomsPerContext
        (64 < length (first_names (kb_atoms (kb_of kb.now))))) }
{
    let mut found = Vec::new(alloc);
    kb.add_atoms(alloc, &mut found)?;
    Ok(found)
}

/// The atoms of a context, by first occurrence: in its items, in the heads of the rules into it, in
/// its variables. `known` are the variables of the system. Refuses if there are more atoms than the
/// limit.
pub(crate) fn atoms_of(
    alloc: Global,
    contexts: &KnownContexts,
    bridges: &[Bridge],
    known: &[Read],
    context: u32,
) -> Result<Vec<Name>, BuildFault>
    requires in_range { context < length contexts.now.items.items }
    requires own { AreOwnAtoms contexts.now.items.items contexts.now.atoms.items }
    requires variables { map read_of known.now ≡ variables (made_of contexts.now bridges.now) }
    ensures atoms { IfOk result (λ v. v.items
        ≡ atoms_of (made_of contexts.now bridges.now) context) }
    ensures few { IfOk result (λ v. length v.items ≤ 64) }
    ensures many { IfErr result
        (IsLimitDue AtomsPerContext (64 < length (atoms_of
        (made_of contexts.now bridges.now) context))) }
{
    let mut found = copy_each(alloc, &contexts.atoms[context as usize])?;
    add_heads(alloc, bridges, context, &mut found)?;
    add_beliefs(alloc, known, context, &mut found)?;
    Ok(found)
}
