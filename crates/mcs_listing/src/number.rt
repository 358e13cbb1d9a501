//! The line of a generated system.

ghost use Rattle.std.specs.Prelude.{◌≡◌, ◌++◌, OnOk};
ghost use Rattle.mcs_text.specs.Writes.{Writes};
ghost use Rattle.mcs_listing.specs.Listings.{number_line};

use mcs_base::{Memory, Text};
use mcs_ports::Sink;
use mcs_system::System;
use mcs_text::{Unwritten, write_line};
use std::alloc::Global;

/// Prints the number, and how many contexts, bridge rules and variables the system has.
pub fn print_number<K: Sink>(
    alloc: Global,
    number: u64,
    system: &System,
    sink: &mut K,
) -> Result<(), Unwritten>
    ensures { Writes (number_line number system.now) (K.device sink.old)
        (K.device sink.new) result }
{
    let mut line = Text::new(alloc);
    push_number_line(&mut line, number, system)?;
    write_line(&line, sink)
}

/// Appends the line with the number and these counts.
#[tactic(auto, unfolding(crate::specs::Listings::number_line))]
fn push_number_line(line: &mut Text, number: u64, system: &System) -> Result<(), Memory>
    ensures { OnOk result (line.new ≡ line.old ++ number_line number system.now) }
{
    line.push(b"make ")?;
    line.push_number(number)?;
    line.push(b": ")?;
    line.push_number(system.contexts().len() as u64)?;
    line.push(b" contexts, ")?;
    line.push_number(system.bridges().len() as u64)?;
    line.push(b" rules, ")?;
    line.push_number(system.variables().len() as u64)?;
    line.push(b" variables\n")
}
