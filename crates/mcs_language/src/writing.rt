//! Writing: from a system to its canonical text.

ghost use Rattle.std.specs.Prelude.{◌≡◌, ◌++◌, OnOk, OnErr};
ghost use Rattle.mcs_writer.specs.Canonical.{canonical_text};
ghost use Rattle.mcs_grammar.specs.Texts.{Spells};

use mcs_base::{Memory, Text};
use mcs_system::System;
use mcs_writer::push_system;

/// The canonical text of the system spells the system.
fn canonical_text_spells(system: &System)
    ensures { Spells (canonical_text system.now) system.now }
{
    let _contexts = system.contexts();
}

/// Appends the canonical text of a system. It spells the system, so that reading it yields the same
/// system. If there is no memory for all of it, `out` stays as it was.
pub fn write_system(system: &System, out: &mut Text) -> Result<(), Memory>
    ensures text { OnOk result (out.new ≡ out.old ++ canonical_text system.now) }
    ensures unchanged { OnErr result (out.new ≡ out.old) }
    ensures reads_back { Spells (canonical_text system.now) system.now }
{
    canonical_text_spells(system);
    push_system(out, system)
}
