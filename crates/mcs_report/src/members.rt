//! Sets of variables and sets of bridge rules, as they are printed.

ghost use Rattle.std.specs.Prelude.{◌≡◌, ◌<◌, ◌++◌, length, map, OnOk, OnErr};
ghost use Rattle.mcs_sets.specs.Sets.{members};
ghost use Rattle.std.specs.List.{AllByRecursion};
ghost use Rattle.mcs_system.specs.Systems.{variables};
ghost use Rattle.mcs_report.specs.Members.{member_text, member_count};
ghost use Rattle.mcs_report.specs.declared.members.Member.TheVariants as kinds;
ghost use Rattle.mcs_text.specs.Separated.{braced};

use mcs_base::{Members, Memory, Text};
use mcs_system::System;
use mcs_text::push_separator;
use mcs_writer::push_read;

/// What the numbers in a set denote.
#[derive(Clone, Copy, Debug, PartialEq, Eq)]
pub enum Member {
    /// Variables of the system, printed as `CONTEXT:BELIEF`.
    Variable,
    /// Bridge rules of the system, printed by their names.
    Rule,
}

/// Appends the variable with this number.
#[tactic(auto, using(mcs_system::proofs::SeenLemmas::loops))]
fn push_variable(text: &mut Text, system: &System, v: u32) -> Result<(), Memory>
    requires { v < length (variables system.now) }
    ensures { OnOk result (text.new ≡ text.old ++ member_text kinds.Variable system.now v) }
{
    push_read(text, system, &system.variables()[v as usize])
}

/// Appends the name of the rule with this number.
#[tactic(auto, using(mcs_system::proofs::SeenLemmas::loops))]
fn push_rule(text: &mut Text, system: &System, r: u32) -> Result<(), Memory>
    requires { r < length system.now.bridges }
    ensures { OnOk result (text.new ≡ text.old ++ member_text kinds.Rule system.now r) }
{
    text.push(system.bridges()[r as usize].name.bytes())
}

/// Appends one member.
fn push_member(text: &mut Text, system: &System, kind: Member, number: u32) -> Result<(), Memory>
    requires { number < member_count kind system.now }
    ensures { OnOk result (text.new ≡ text.old ++ member_text kind system.now number) }
{
    match kind {
        Member::Variable => push_variable(text, system, number),
        Member::Rule => push_rule(text, system, number),
    }
}

/// Appends the members of a set in braces to a text of its own.
fn push_braced(text: &mut Text, system: &System, kind: Member, set: Members) -> Result<(), Memory>
    requires { AllByRecursion (λ k. k < member_count kind system.now) set }
    ensures { OnOk result (text.new ≡ text.old ++ braced (map (member_text kind system.now) set)) }
{
    text.push(b"{")?;
    let mut is_first = true;
    for number in set {
        push_separator(text, is_first, b", ")?;
        push_member(text, system, kind, number)?;
        is_first = false;
    }
    text.push(b"}")
}

/// Appends the members of a set in braces, in ascending order, separated by a comma and a space.
/// The members have to be numbers of variables, or of rules, of the system. Without memory the text
/// stays as it was.
pub fn push_set(text: &mut Text, system: &System, kind: Member, set: Members) -> Result<(), Memory>
    requires { AllByRecursion (λ k. k < member_count kind system.now) set }
    ensures ok { OnOk result (text.new
        ≡ text.old ++ braced (map (member_text kind system.now) set)) }
    ensures err { OnErr result (text.new ≡ text.old) }
{
    let mut own = text.empty_like();
    push_braced(&mut own, system, kind, set)?;
    text.push(own.bytes())
}
