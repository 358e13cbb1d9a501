//! Copies of contexts and bridge rules, and what is built of them.

use crate::systems::{Claim, holds, is_written};
use mcs_base::Memory;
use mcs_system::{Bridge, BuildFault, Context, System};
use std::alloc::Global;

/// Appends copies of the contexts.
fn push_contexts(
    alloc: Global,
    contexts: &mut Vec<Context>,
    copied: &[Context],
) -> Result<(), Memory> {
    for context in copied {
        contexts.push(context.copy(alloc)?)?;
    }
    Ok(())
}

/// Appends copies of the bridge rules.
fn push_bridges(alloc: Global, bridges: &mut Vec<Bridge>, copied: &[Bridge]) -> Result<(), Memory> {
    for bridge in copied {
        bridges.push(bridge.copy(alloc)?)?;
    }
    Ok(())
}

/// Copies of all these contexts.
pub(crate) fn contexts_of(alloc: Global, parts: &[&[Context]]) -> Result<Vec<Context>, Memory> {
    let mut contexts = Vec::new(alloc);
    for part in parts {
        push_contexts(alloc, &mut contexts, part)?;
    }
    Ok(contexts)
}

/// Copies of all these bridge rules.
pub(crate) fn bridges_of(alloc: Global, parts: &[&[Bridge]]) -> Result<Vec<Bridge>, Memory> {
    let mut bridges = Vec::new(alloc);
    for part in parts {
        push_bridges(alloc, &mut bridges, part)?;
    }
    Ok(bridges)
}

/// The system of copies of all these contexts and bridge rules.
pub(crate) fn built(
    alloc: Global,
    contexts: &[&[Context]],
    bridges: &[&[Bridge]],
) -> Result<System, BuildFault> {
    let contexts = contexts_of(alloc, contexts)?;
    let bridges = bridges_of(alloc, bridges)?;
    System::build(alloc, contexts, bridges)
}

/// A system with each construct, in its canonical text.
const EACH: &[u8] = b"context c1 program {
  c1 :- c1, c1.
}
context c2 classical {
  ~((((true <-> false) -> a) | false) & true).
  false.
}
context c3 default {
  true.
  true : true / false.
}
context c4 classical {
}
bridge r1: c4:false if not c2:true, not c3:true.
";

/// Whether copies of the contexts and rules of the system make one with this text.
pub(crate) fn is_copied(alloc: Global, system: &System, text: &[u8]) -> Result<bool, Memory> {
    match built(alloc, &[system.contexts()], &[system.bridges()]) {
        Ok(copy) => {
            let is_written = is_written(alloc, &copy, text);
            drop(copy);
            is_written
        }
        Err(_) => Ok(false),
    }
}

/// The copies are seen in the text that is written of them.
#[test]
fn copies_have_each_construct(rt: HostRuntime) {
    assert!(rt; holds(rt.alloc(), EACH, &Claim::IsCopied(EACH)));
}
