//! The letters of a round on one thread, each of which is delivered as soon as it is put out.

ghost use Rattle.std.specs.Prelude.{◌≡◌, IfErr, OnErr, OnOk, map};
ghost use Rattle.mcs_states.specs.declared.halt.Halt.TheVariants as halts;
ghost use Rattle.mcs_mesh.specs.Players.{AreDelivered, AreExpected, AreSomeDelivered, IsDelivered};
ghost use Rattle.mcs_mesh.specs.Players.{IsExpected, IsTakenIn, as_new};

use mcs_node::{Letter, Node};
use mcs_states::{Halt, Oracle};
use std::alloc::Global;

/// Delivers the letters that the node of context `i` has put out, which are supplies for which
/// their addressees wait. Want of memory stops an addressee.
pub(crate) fn deliver_all<O: Oracle>(
    alloc: Global,
    i: u32,
    nodes: &mut [Node<O>],
) -> Result<(), Halt>
    requires { AreExpected i nodes.old }
    ensures delivered { OnOk result (AreDelivered i nodes.old nodes.new) }
    ensures some { OnErr result (AreSomeDelivered i nodes.old nodes.new) }
    ensures cause { IfErr result (λ halt. halt ≡ halts.Memory) }
    ensures same { map as_new nodes.new ≡ map as_new nodes.old }
{
    while let Some(letter) = nodes[i as usize].next_out() {
        deliver(alloc, letter, nodes)?;
    }
    Ok(())
}

/// Delivers a supply to its addressee, which waits for it. Want of memory stops the addressee.
fn deliver<O: Oracle>(alloc: Global, letter: Letter, nodes: &mut [Node<O>]) -> Result<(), Halt>
    requires { IsExpected letter nodes.old }
    ensures delivered { OnOk result (IsDelivered letter nodes.old nodes.new) }
    ensures taken { IsTakenIn letter nodes.old nodes.new }
    ensures cause { IfErr result (λ halt. halt ≡ halts.Memory) }
    ensures same { map as_new nodes.new ≡ map as_new nodes.old }
{
    let to = letter.to() as usize;
    let node = &mut nodes[to];
    node.receive(alloc, letter);
    match node.stopped() {
        Some(halt) => Err(halt),
        None => Ok(()),
    }
}
