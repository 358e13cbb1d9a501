//! The generated systems.

ghost use Rattle.std.specs.Prelude.{◌≡◌, IfOk, map};
ghost use Rattle.mcs_system.specs.Seen.{context_of, bridge_of};
ghost use Rattle.mcs_generator.specs.Generated.{generated_contexts, generated_bridges};
ghost use Rattle.mcs_generator.specs.Generated.{generated_system};

use crate::bridges::{missed_rule, reached_rule};
use crate::knowledge::context;
use crate::numbers::context_count;
use mcs_base::Memory;
use mcs_system::{Bridge, Context, System};
use std::alloc::Global;

/// The contexts of the generated system.
fn contexts(alloc: Global, number: u64) -> Result<Vec<Context>, Memory>
    ensures { IfOk result (λ cs. map context_of cs.items ≡ generated_contexts number) }
{
    let mut contexts = Vec::new(alloc);
    for i in 0..context_count(number) {
        contexts.push(context(alloc, number, i)?)?;
    }
    Ok(contexts)
}

/// The bridge rules of the generated system.
fn bridges(alloc: Global, number: u64) -> Result<Vec<Bridge>, Memory>
    ensures { IfOk result (λ bs. map bridge_of bs.items ≡ generated_bridges number) }
{
    let mut bridges = Vec::new(alloc);
    for i in 1..context_count(number) {
        bridges.push(reached_rule(alloc, number, i)?)?;
        bridges.push(missed_rule(alloc, number, i)?)?;
    }
    Ok(bridges)
}

/// The generated system with this number.
///
/// - It has `2 + number % 32` contexts in a row: programs, classical contexts and default theories
///   in turn. Each has a chain of `1 + number / 32 % 32` links, which starts from `x`.
/// - Two rules go into each context but the first. One adds `x` if the context before it believes
///   its last link, and one adds `y` if it does not.
/// - The first context chooses between `x` and `y`.
/// - If `number / 1024` is odd, the last context is a program that forbids both. This is meant to
///   make the system inconsistent, and every other system is meant to be consistent; no clause says
///   so.
pub fn generate(alloc: Global, number: u64) -> Result<System, Memory>
    ensures { IfOk result (λ s. s ≡ generated_system number) }
{
    let contexts = contexts(alloc, number)?;
    let bridges = bridges(alloc, number)?;
    System::of_valid(alloc, contexts, bridges)
}
