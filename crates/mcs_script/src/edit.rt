//! Edits of a system.

ghost use Rattle.std.specs.Prelude.{◌≡◌, IfErr, IfOk, map};
ghost use Rattle.mcs_script.specs.Edits.{AreAllowed, edited, system_after};
ghost use Rattle.mcs_script.specs.Seen.{edit_of};
ghost use Rattle.mcs_system.specs.Built.{IsFaultOf};
ghost use Rattle.mcs_system.specs.Faults.{IsValid};

use crate::rules::{copied_rules, edit_rules, with_valid_rules};
use mcs_base::Memory;
use mcs_system::{Bridge, BuildFault, Name, System};
use std::alloc::Global;

/// An edit of a system. The contexts of the system stay as they are.
#[derive(Drop)]
pub enum Edit {
    /// The rule is added as the last one.
    Add(Bridge),
    /// The rule with this name is dropped, and those after it move up.
    Drop(Name),
    /// A listing of the system is asked for.
    List,
}

/// The system after the edit, or the fault that it would have. It shares the contexts. A `Draft`
/// takes less time for each of many edits, and `system_after` for edits that are known to be allowed.
pub fn edited(alloc: Global, system: System, edit: &Edit) -> Result<System, BuildFault>
    ensures ok { IfOk result (λ s. (s ≡ edited system (edit_of edit.now)) × IsValid s) }
    ensures fault { IfErr result (IsFaultOf (edited system (edit_of edit.now))) }
{
    // The contract of `contexts` ensures that the system is valid.
    let _ = system.contexts();
    match edit {
        Edit::Add(rule) => {
            let rule = rule.copy(alloc)?;
            system.with_rule(alloc, rule)
        }
        Edit::Drop(name) => Ok(system.without_rule(alloc, name)?),
        Edit::List => Ok(system),
    }
}

/// The system after these edits, one after the other. Each has to be allowed: a rule that is dropped
/// is there, and the edited system has no fault. One system is made, which shares the contexts.
pub fn system_after(alloc: Global, system: &System, edits: &[Edit]) -> Result<System, Memory>
    requires { AreAllowed system.now (map edit_of edits.now) }
    ensures { IfOk result (λ s. s ≡ system_after system.now (map edit_of edits.now)) }
{
    let mut rules = copied_rules(alloc, system.bridges())?;
    for edit in edits {
        edit_rules(alloc, &mut rules, edit)?;
    }
    with_valid_rules(alloc, system, rules)
}
