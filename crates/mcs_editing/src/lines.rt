//! The lines of a session that are not of a listing, each written in one piece.

ghost use Rattle.mcs_text.specs.Writes.{Writes};
ghost use Rattle.mcs_report.specs.Sessions.{answers_line, list_line, session_end_line};

use mcs_base::Text;
use mcs_ports::Sink;
use mcs_report::{answers_line, list_line, session_end_line};
use mcs_session::Answers;
use mcs_system::System;
use mcs_text::{Unwritten, write_line};
use std::alloc::Global;

/// Prints the line before the listing of this number: how many rules the system has.
pub(crate) fn print_list_line<K: Sink>(
    alloc: Global,
    system: &System,
    number: u64,
    sink: &mut K,
) -> Result<(), Unwritten>
    ensures { Writes (list_line system.now number) (K.device sink.old) (K.device sink.new) result }
{
    let mut line = Text::new(alloc);
    list_line(system, number, &mut line)?;
    write_line(&line, sink)
}

/// Prints the line after a listing: how many of its keys are new, and how many were kept.
pub(crate) fn print_answers_line<K: Sink>(
    alloc: Global,
    answers: Answers,
    sink: &mut K,
) -> Result<(), Unwritten>
    ensures { Writes (answers_line answers.new answers.kept) (K.device sink.old)
        (K.device sink.new) result }
{
    let mut line = Text::new(alloc);
    answers_line(answers.new, answers.kept, &mut line)?;
    write_line(&line, sink)
}

/// Prints the last line: how many listings there were, and how many keys these had.
pub(crate) fn print_end_line<K: Sink>(
    alloc: Global,
    lists: u64,
    answers: u64,
    sink: &mut K,
) -> Result<(), Unwritten>
    ensures { Writes (session_end_line lists answers) (K.device sink.old) (K.device sink.new)
        result }
{
    let mut line = Text::new(alloc);
    session_end_line(lists, answers, &mut line)?;
    write_line(&line, sink)
}
