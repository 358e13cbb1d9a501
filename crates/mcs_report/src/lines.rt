//! The lines of a listing of equilibria. Each call appends one line with its line feed. Without
//! memory the text stays as it was.

ghost use Rattle.std.specs.Prelude.{◌≡◌, ◌++◌, OnOk, OnErr};
ghost use Rattle.mcs_sets.specs.Sets.{Within};
ghost use Rattle.mcs_system.specs.Systems.{all_variables};
ghost use Rattle.mcs_report.specs.Listing.{heading, state_line, equilibrium_line, verdict_line};
ghost use Rattle.mcs_report.specs.Listing.{short_end_line, grounded_line, grounded_end_line};

use crate::members::{Member, push_set};
use mcs_base::{Memory, Text, Vars};
use mcs_system::System;

/// Appends the heading: how many contexts, bridge rules and variables the system has.
#[tactic(auto, unfolding(crate::specs::Listing::heading))]
pub fn heading(system: &System, out: &mut Text) -> Result<(), Memory>
    ensures ok { OnOk result (out.new ≡ out.old ++ heading system.now) }
    ensures err { OnErr result (out.new ≡ out.old) }
{
    let mut line = out.empty_like();
    line.push(b"mcs 1: ")?;
    line.push_number(system.contexts().len() as u64)?;
    line.push(b" contexts, ")?;
    line.push_number(system.bridges().len() as u64)?;
    line.push(b" rules, ")?;
    line.push_number(system.variables().len() as u64)?;
    line.push(b" variables\n")?;
    out.push(line.bytes())
}

/// Appends the line of the equilibrium with this number: the state and the rules that apply in it.
/// The variables of the state have to be of the system.
pub fn equilibrium_line(
    system: &System,
    number: u64,
    state: Vars,
    out: &mut Text,
) -> Result<(), Memory>
    requires { Within state (all_variables system.now) }
    ensures ok { OnOk result (out.new ≡ out.old ++ equilibrium_line system.now number state) }
    ensures err { OnErr result (out.new ≡ out.old) }
{
    push_state_line(b"equilibrium ", system, number, state, out)
}

/// Appends the line of the grounded equilibrium with this number: the state and the rules that
/// apply in it. The variables of the state have to be of the system.
pub fn grounded_line(
    system: &System,
    number: u64,
    state: Vars,
    out: &mut Text,
) -> Result<(), Memory>
    requires { Within state (all_variables system.now) }
    ensures ok { OnOk result (out.new ≡ out.old ++ grounded_line system.now number state) }
    ensures err { OnErr result (out.new ≡ out.old) }
{
    push_state_line(b"grounded ", system, number, state, out)
}

/// Appends the line of a state: the word, the number, the state and the rules that apply in it.
#[tactic(auto, unfolding(crate::specs::Listing::state_line))]
fn push_state_line(
    word: &[u8],
    system: &System,
    number: u64,
    state: Vars,
    out: &mut Text,
) -> Result<(), Memory>
    requires { Within state (all_variables system.now) }
    ensures ok { OnOk result (out.new ≡ out.old ++ state_line word.now system.now number state) }
    ensures err { OnErr result (out.new ≡ out.old) }
{
    let mut line = out.empty_like();
    line.push(word)?;
    line.push_number(number)?;
    line.push(b": ")?;
    push_set(&mut line, system, Member::Variable, state.members())?;
    line.push(b" applicable ")?;
    let rules = system.applicable_rules(state);
    push_set(&mut line, system, Member::Rule, rules.members())?;
    line.push(b"\n")?;
    out.push(line.bytes())
}

/// Appends the verdict: whether there is an equilibrium.
pub fn verdict_line(consistent: bool, out: &mut Text) -> Result<(), Memory>
    ensures ok { OnOk result (out.new ≡ out.old ++ verdict_line consistent) }
    ensures err { OnErr result (out.new ≡ out.old) }
{
    out.push(if consistent {
        b"consistent\n"
    } else {
        b"inconsistent\n"
    })
}

/// Appends the end line of a listing of equilibria: how many there are, and the number of
/// questions.
#[tactic(auto, unfolding(crate::specs::Listing::short_end_line))]
pub fn short_end_line(equilibria: u64, need: u64, out: &mut Text) -> Result<(), Memory>
    ensures ok { OnOk result (out.new ≡ out.old ++ short_end_line equilibria need) }
    ensures err { OnErr result (out.new ≡ out.old) }
{
    let mut line = out.empty_like();
    line.push(b"end: ")?;
    line.push_number(equilibria)?;
    line.push(b" equilibria, need ")?;
    line.push_number(need)?;
    line.push(b"\n")?;
    out.push(line.bytes())
}

/// Appends the end line of a listing of grounded equilibria: how many there are, how many
/// equilibria, and the number of questions.
#[tactic(auto, unfolding(crate::specs::Listing::grounded_end_line))]
pub fn grounded_end_line(
    grounded: u64,
    equilibria: u64,
    need: u64,
    out: &mut Text,
) -> Result<(), Memory>
    ensures ok { OnOk result (out.new ≡ out.old ++ grounded_end_line grounded equilibria need) }
    ensures err { OnErr result (out.new ≡ out.old) }
{
    let mut line = out.empty_like();
    line.push(b"end: ")?;
    line.push_number(grounded)?;
    line.push(b" grounded of ")?;
    line.push_number(equilibria)?;
    line.push(b" equilibria, need ")?;
    line.push_number(need)?;
    line.push(b"\n")?;
    out.push(line.bytes())
}
