//! The lines of certificates of default theories.

ghost use Rattle.std.specs.Prelude.{◌≡◌, ◌∷◌, ◌++◌, map, OnOk};
ghost use Rattle.std.specs.List.{flat_map};
ghost use Rattle.mcs_cnf.specs.Entailments.{entailment_of};
ghost use Rattle.mcs_evidence.specs.Defaults.{absence_of, verdict_of};
ghost use Rattle.mcs_proof_text.specs.Lines.{SetLine, UnsupportedLine, BlockedLine, AppliedLine};
ghost use Rattle.mcs_proof_text.specs.Lines.{UngroundedLine, ExtensionLine, line_with_feed};
ghost use Rattle.mcs_proof_text.specs.Lines.{written_lines};
ghost use Rattle.mcs_proof_text.specs.Answers.{absence_lines, verdict_lines, set_lines};
ghost use Rattle.mcs_proof_text.specs.Answers.{entailment_lines, all_entailment_lines};

use crate::traces::{push_entailment, push_entailments};
use mcs_base::{Memory, Text};
use mcs_spelling::{push_defaults, push_order};
use mcs_system::Name;
use mcs_trace::{Entail, Outside, SetCert};

/// Appends the line of an unsupported default.
#[tactic(auto, unfolding(crate::specs::Lines::line_text))]
fn push_unsupported(text: &mut Text, names: &[Name], number: u32) -> Result<(), Memory>
    ensures { OnOk result (text.new
        ≡ text.old ++ line_with_feed names.now (UnsupportedLine number)) }
{
    text.push(b"unsupported ")?;
    text.push_number(u64::from(number))?;
    text.push(b"\n")
}

/// Appends the line of a blocked default, with its justification.
#[tactic(auto, unfolding(crate::specs::Lines::line_text))]
fn push_blocked(text: &mut Text, names: &[Name], number: u32, just: u32) -> Result<(), Memory>
    ensures { OnOk result (text.new
        ≡ text.old ++ line_with_feed names.now (BlockedLine number just)) }
{
    text.push(b"blocked ")?;
    text.push_number(u64::from(number))?;
    text.push(b" ")?;
    text.push_number(u64::from(just))?;
    text.push(b"\n")
}

/// Appends the line of a default that applies.
#[tactic(auto, unfolding(crate::specs::Lines::line_text))]
fn push_applied(text: &mut Text, names: &[Name], number: u32) -> Result<(), Memory>
    ensures { OnOk result (text.new ≡ text.old ++ line_with_feed names.now (AppliedLine number)) }
{
    text.push(b"applied ")?;
    text.push_number(u64::from(number))?;
    text.push(b"\n")
}

/// Appends the line of a subset that supports no other default of the set.
#[tactic(auto, unfolding(crate::specs::Lines::line_text))]
fn push_ungrounded(text: &mut Text, names: &[Name], closed: u32) -> Result<(), Memory>
    ensures { OnOk result (text.new
        ≡ text.old ++ line_with_feed names.now (UngroundedLine closed)) }
{
    text.push(b"ungrounded ")?;
    push_defaults(text, u64::from(closed))?;
    text.push(b"\n")
}

/// Appends the line of an extension, with its defaults in an order.
#[tactic(auto, unfolding(crate::specs::Lines::line_text))]
fn push_extension(text: &mut Text, names: &[Name], order: &[u32]) -> Result<(), Memory>
    ensures { OnOk result (text.new
        ≡ text.old ++ line_with_feed names.now (ExtensionLine order.now)) }
{
    text.push(b"extension")?;
    push_order(text, order)?;
    text.push(b"\n")
}

/// Appends the line of a set of defaults.
#[tactic(auto, unfolding(crate::specs::Lines::line_text))]
fn push_set_line(text: &mut Text, names: &[Name], set: u64) -> Result<(), Memory>
    ensures { OnOk result (text.new ≡ text.old ++ line_with_feed names.now (SetLine set)) }
{
    text.push(b"set ")?;
    push_defaults(text, set)?;
    text.push(b"\n")
}

/// Appends the lines that show that a default outside the set does not apply.
fn push_absence(text: &mut Text, names: &[Name], outside: &Outside) -> Result<(), Memory>
    ensures { OnOk result (text.new
        ≡ text.old ++ written_lines names.now (absence_lines (absence_of outside.now))) }
{
    match outside {
        Outside::Unsupported(number, entail) => {
            push_unsupported(text, names, *number)?;
            push_entailment(text, names, entail)
        }
        Outside::Blocked(number, just, entail) => {
            push_blocked(text, names, *number, *just)?;
            push_entailment(text, names, entail)
        }
    }
}

/// Appends the lines for several defaults outside the set.
fn push_absences(text: &mut Text, names: &[Name], outside: &[Outside]) -> Result<(), Memory>
    ensures { OnOk result (text.new ≡ text.old ++ written_lines names.now
        (flat_map absence_lines (map absence_of outside.now))) }
{
    for one in outside {
        push_absence(text, names, one)?;
    }
    Ok(())
}

/// Appends the lines of a default that is outside the set and applies.
fn push_applying(
    text: &mut Text,
    names: &[Name],
    number: u32,
    pre: &Entail,
    justs: &[Entail],
) -> Result<(), Memory>
    ensures { OnOk result (text.new ≡ text.old ++ written_lines names.now
        (AppliedLine number ∷ (entailment_lines (entailment_of pre.now)
        ++ all_entailment_lines (map entailment_of justs.now)))) }
{
    push_applied(text, names, number)?;
    push_entailment(text, names, pre)?;
    push_entailments(text, names, justs)
}

/// Appends the lines of the verdict on a set of defaults.
fn push_verdict(text: &mut Text, names: &[Name], verdict: &SetCert) -> Result<(), Memory>
    ensures { OnOk result (text.new
        ≡ text.old ++ written_lines names.now (verdict_lines (verdict_of verdict.now))) }
{
    match verdict {
        SetCert::Fails(outside) => push_absence(text, names, outside),
        SetCert::Applied { number, pre, justs } => push_applying(text, names, *number, pre, justs),
        SetCert::Ungrounded { closed, pres } => {
            push_ungrounded(text, names, *closed)?;
            push_entailments(text, names, pres)
        }
        SetCert::Extension {
            order,
            pres,
            justs,
            outside,
            outputs,
        } => {
            push_extension(text, names, order)?;
            push_entailments(text, names, pres)?;
            push_entailments(text, names, justs)?;
            push_absences(text, names, outside)?;
            push_entailments(text, names, outputs)
        }
    }
}

/// Appends the lines of the verdicts on all sets of defaults to a text of its own, each after the
/// line of its set.
pub(crate) fn push_verdicts(
    text: &mut Text,
    names: &[Name],
    verdicts: &[SetCert],
) -> Result<(), Memory>
    ensures { OnOk result (text.new
        ≡ text.old ++ written_lines names.now (set_lines 0 (map verdict_of verdicts.now))) }
{
    for (set, verdict) in verdicts.iter().enumerate() {
        push_set_line(text, names, set as u64)?;
        push_verdict(text, names, verdict)?;
    }
    Ok(())
}
