//! Rings of contexts, each of which reads the next.

ghost use Rattle.std.specs.Prelude.{ℕ};
ghost use Rattle.mcs_sets.specs.Sets.{Within};

use crate::meshes::{NOWHERE, mesh_of, system_of};
use mcs_base::{Marks, Memory, Pair, Text, Vars};
use mcs_ports::IdleGate;
use mcs_states::Evaluator;
use mcs_system::System;
use std::alloc::Global;
use std::sync::Arc;
use std::test::Fail;

/// Appends the words, and the number.
fn push_numbered(text: &mut Text, words: &[u8], number: u64) -> Result<(), Memory> {
    text.push(words)?;
    text.push_number(number)
}

/// Appends so many contexts.
fn push_contexts(text: &mut Text, size: u64) -> Result<(), Memory> {
    for i in 0..size {
        push_numbered(text, b"context c", i)?;
        text.push(b" program {} ")?;
    }
    Ok(())
}

/// Appends the rule that tells a context what the other one believes.
fn push_rule(text: &mut Text, told: u64, other: u64) -> Result<(), Memory> {
    push_numbered(text, b"bridge r", told)?;
    push_numbered(text, b": c", told)?;
    push_numbered(text, b":p if c", other)?;
    text.push(b":p. ")
}

/// Appends contexts, each of which is told what the next one believes, and the last one what the
/// first one does.
fn push_ring(text: &mut Text, size: u64) -> Result<(), Memory> {
    push_contexts(text, size)?;
    for i in 0..size {
        push_rule(text, i, (i + 1) % size)?;
    }
    Ok(())
}

/// The text of the ring of so many contexts.
fn text_of(alloc: Global, size: u64) -> Result<Text, Memory> {
    let mut text = Text::new(alloc);
    match push_ring(&mut text, size) {
        Ok(()) => Ok(text),
        Err(want) => {
            drop(text);
            Err(want)
        }
    }
}

/// The ring of so many contexts.
fn ring_of(alloc: Global, size: u64) -> Result<Arc<System>, Fail> {
    let text = text_of(alloc, size)?;
    let system = system_of(alloc, text.bytes());
    drop(text);
    system
}

/// The pair that changes nothing.
fn empty_pair() -> Pair
    ensures { (marks : ℕ) → Within result marks }
{
    Pair::new(Marks::empty())
}

/// Whether these are two states, of which the first has so many beliefs and the other none.
fn are_two(states: &[Vars], beliefs: u64) -> bool {
    match states {
        [all, none] => u64::from(all.count()) == beliefs && none.number() == 0,
        _ => false,
    }
}

/// Whether the system, a ring, has two equilibria, all beliefs and none, after two questions to
/// each context.
fn has_two_states(alloc: Global, system: &Arc<System>) -> Result<bool, Memory> {
    let contexts = system.contexts().len() as u64;
    let mut mesh = mesh_of(alloc, system, 1000, NOWHERE, &IdleGate)?;
    let is_right = match mesh.states(alloc, empty_pair()) {
        Ok(states) => are_two(&states, contexts),
        Err(_) => false,
    };
    let asked = mesh.asked();
    drop(mesh);
    Ok(is_right && asked == 2 * contexts)
}

#[test]
fn rings_have_two_states(rt: HostRuntime) -> Result<(), Fail> {
    let mut are_right = true;
    for size in [3, 64] {
        let system = ring_of(rt.alloc(), size)?;
        are_right &= has_two_states(rt.alloc(), &system) == Ok(true);
        drop(system);
    }
    assert!(rt; are_right);
    Ok(())
}
