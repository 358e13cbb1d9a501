//! Systems by their texts.

ghost use Rattle.std.specs.Prelude.{◌≡◌, ◌<◌, ◌≤◌, true, length};
ghost use Rattle.mcs_sets.specs.Sets.{Within};
ghost use Rattle.mcs_system.specs.Faults.{default_count};
ghost use Rattle.mcs_system.specs.Repairs.{allowed_marks};
ghost use Rattle.mcs_system.specs.Seen.{kb_of};
ghost use Rattle.mcs_asking.specs.Kinds.{IsOverKb};

use mcs_base::Marks;
use mcs_language::read_system;
use mcs_system::{Kb, Name, System};
use std::alloc::Global;
use std::sync::Arc;
use std::test::Fail;

/// The second context is told by each of the rules what it forbids.
pub(crate) const FORBIDDEN: &str = "context c1 program { a. } context c2 program { :- p. :- q. }
bridge r1: c2:p if c1:a. bridge r2: c2:q if not c1:b.";

/// A rule against its own context.
pub(crate) const SELF_ATTACK: &str = "context c1 program {} bridge r1: c1:a if not c1:a.";

/// Each of the rules attacks the other one.
pub(crate) const CHOICE: &str = "context c1 program {} context c2 program {}
bridge r1: c1:a if not c2:b. bridge r2: c2:b if not c1:a.";

/// The system that the text spells.
pub(crate) fn system_of(alloc: Global, text: &str) -> Result<Arc<System>, Fail> {
    Ok(Arc::new(alloc, read_system(alloc, text.as_bytes())?)?)
}

/// Whether a repair of the system may have these marks.
pub(crate) fn are_allowed(system: &System, marks: Marks) -> bool
    ensures { result ≡ true → Within marks (allowed_marks system.now) }
{
    marks.within(system.allowed())
}

/// What the first context knows, and its atoms.
pub(crate) fn first_knowledge(system: &System) -> (&Kb, &[Name])
    requires { 0 < length system.now.contexts }
    ensures over { IsOverKb result.1.now (kb_of result.0.now) }
    ensures few { length result.1.now ≤ 64 }
    ensures few_defaults { default_count (kb_of result.0.now) ≤ 10 }
{
    let contexts = system.contexts();
    (&contexts[0].kb, system.atoms_of(0))
}
