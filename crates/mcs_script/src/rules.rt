//! The rules of a system that is edited.

ghost use Rattle.std.specs.Prelude.{◌≡◌, IfOk, OnOk, filter, map, not};
ghost use Rattle.mcs_system.specs.Faults.{IsValid};
ghost use Rattle.mcs_system.specs.Logic.{same_name};
ghost use Rattle.mcs_system.specs.Plain.{System};
ghost use Rattle.mcs_system.specs.Seen.{bridge_of};
ghost use Rattle.mcs_script.specs.Drafts.{drafted};
ghost use Rattle.mcs_script.specs.Edits.{edited};
ghost use Rattle.mcs_script.specs.Seen.{edit_of};

use crate::edit::Edit;
use mcs_base::Memory;
use mcs_system::{Bridge, BuildFault, Name, System};
use std::alloc::Global;

/// Copies of the rules.
pub(crate) fn copied_rules(alloc: Global, rules: &[Bridge]) -> Result<Vec<Bridge>, Memory>
    ensures { IfOk result (λ copies. map bridge_of copies.items ≡ map bridge_of rules.now) }
{
    let mut copies = Vec::new(alloc);
    for rule in rules {
        copies.push(rule.copy(alloc)?)?;
    }
    Ok(copies)
}

/// The system with these rules in place of its own.
pub(crate) fn with_valid_rules(
    alloc: Global,
    bare: &System,
    rules: Vec<Bridge>,
) -> Result<System, Memory>
    requires { IsValid (drafted bare.now rules.items) }
    ensures { IfOk result (λ s. s ≡ drafted bare.now rules.items) }
{
    let bare = bare.copy(alloc)?;
    match bare.with_rules(alloc, rules) {
        Ok(system) => Ok(system),
        Err(BuildFault::Memory) => Err(Memory),
        Err(BuildFault::Fault { .. }) => unreachable!(),
    }
}

/// Drops the rules of this name; those after them move up. No memory is needed.
pub(crate) fn drop_rule(rules: &mut Vec<Bridge>, name: &Name)
    ensures { map bridge_of rules.new.items
        ≡ filter (λ b. not (same_name name.now b.name)) (map bridge_of rules.old.items) }
{
    rules.retain(|rule| !name.is(&rule.name));
}

/// Makes the rules those of the edited system. Nothing is tested.
pub(crate) fn edit_rules(alloc: Global, rules: &mut Vec<Bridge>, edit: &Edit) -> Result<(), Memory>
    ensures { OnOk result ((bare : System) → drafted bare rules.new.items
        ≡ edited (drafted bare rules.old.items) (edit_of edit.now)) }
{
    match edit {
        Edit::Add(rule) => rules.push(rule.copy(alloc)?)?,
        Edit::Drop(name) => drop_rule(rules, name),
        Edit::List => {}
    }
    Ok(())
}
