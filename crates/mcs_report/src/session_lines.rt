//! The lines of an edit session around its listings. Each call appends one line with its line feed.
//! Without memory the text stays as it was.

ghost use Rattle.std.specs.Prelude.{◌≡◌, ◌++◌, OnOk, OnErr};
ghost use Rattle.mcs_report.specs.Sessions.{list_line, answers_line, session_end_line};

use mcs_base::{Memory, Text};
use mcs_system::System;

/// Appends the first line of the listing with this number: how many bridge rules the system has.
#[tactic(auto, unfolding(crate::specs::Sessions::list_line))]
pub fn list_line(system: &System, number: u64, out: &mut Text) -> Result<(), Memory>
    ensures ok { OnOk result (out.new ≡ out.old ++ list_line system.now number) }
    ensures err { OnErr result (out.new ≡ out.old) }
{
    let mut line = out.empty_like();
    line.push(b"list ")?;
    line.push_number(number)?;
    line.push(b": ")?;
    line.push_number(system.bridges().len() as u64)?;
    line.push(b" rules\n")?;
    out.push(line.bytes())
}

/// Appends the last line of a listing: how many of the answers that it needed were new, and how
/// many were kept.
#[tactic(auto, unfolding(crate::specs::Sessions::answers_line))]
pub fn answers_line(new: u64, kept: u64, out: &mut Text) -> Result<(), Memory>
    ensures ok { OnOk result (out.new ≡ out.old ++ answers_line new kept) }
    ensures err { OnErr result (out.new ≡ out.old) }
{
    let mut line = out.empty_like();
    line.push(b"answers: ")?;
    line.push_number(new)?;
    line.push(b" new, ")?;
    line.push_number(kept)?;
    line.push(b" kept\n")?;
    out.push(line.bytes())
}

/// Appends the end line of a session: how many listings were printed, and how many different
/// answers they needed.
#[tactic(auto, unfolding(crate::specs::Sessions::session_end_line))]
pub fn session_end_line(lists: u64, answers: u64, out: &mut Text) -> Result<(), Memory>
    ensures ok { OnOk result (out.new ≡ out.old ++ session_end_line lists answers) }
    ensures err { OnErr result (out.new ≡ out.old) }
{
    let mut line = out.empty_like();
    line.push(b"end of session: ")?;
    line.push_number(lists)?;
    line.push(b" lists, ")?;
    line.push_number(answers)?;
    line.push(b" answers\n")?;
    out.push(line.bytes())
}
