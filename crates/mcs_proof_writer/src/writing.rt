//! Writes the proof part line by line.

ghost use Rattle.std.specs.List.{AllByRecursion, flat_map};
ghost use Rattle.mcs_text.specs.Writes.{Writes};
ghost use Rattle.mcs_proof_text.specs.Lines.{text_of_lines};
ghost use Rattle.mcs_proof_text.specs.Answers.{answer_lines};
ghost use Rattle.mcs_proof_text.specs.Proofs.{proof_lines};
ghost use Rattle.mcs_proof_writer.specs.Gathered.{answer_of_shown, answers_of, IsWritable};

use crate::gathering::Shown;
use mcs_base::Text;
use mcs_ports::{Sink, write_whole};
use mcs_proof_text::answer_lines;
use mcs_spelling::find;
use mcs_system::System;
use mcs_text::Unwritten;
use std::alloc::Global;

/// Writes the bytes as one piece.
fn write_piece<K: Sink>(bytes: &[u8], sink: &mut K) -> Result<(), Unwritten>
    ensures { Writes bytes.now (K.device sink.old) (K.device sink.new) result }
{
    match write_whole(sink, bytes) {
        Ok(()) => Ok(()),
        Err(_) => Err(Unwritten::Fault),
    }
}

/// Writes the lines, each in one piece, and then what follows the last line feed.
fn write_lines<K: Sink>(lines: &[u8], sink: &mut K) -> Result<(), Unwritten>
    ensures { Writes lines.now (K.device sink.old) (K.device sink.new) result }
{
    let mut rest = lines;
    while let Some(end) = find(rest, b'\n') {
        let (line, later) = rest.split_at(end + 1);
        write_piece(line, sink)?;
        rest = later;
    }
    write_piece(rest, sink)
}

/// Writes the lines of an answer.
fn write_answer<K: Sink>(
    alloc: Global,
    system: &System,
    shown: &Shown,
    sink: &mut K,
) -> Result<(), Unwritten>
    requires { IsWritable system.now (answer_of_shown shown.now) }
    ensures { Writes (text_of_lines (answer_lines system.now (answer_of_shown shown.now)))
        (K.device sink.old) (K.device sink.new) result }
{
    let mut text = Text::new(alloc);
    answer_lines(
        system,
        shown.question.context,
        shown.question.active,
        shown.outputs,
        shown.cert,
        &mut text,
    )?;
    write_lines(text.bytes(), sink)
}

/// Writes the lines of the answers, one after the other.
fn write_answers<K: Sink>(
    alloc: Global,
    system: &System,
    answers: &[Shown],
    sink: &mut K,
) -> Result<(), Unwritten>
    requires { AllByRecursion (IsWritable system.now) (answers_of answers.now) }
    ensures { Writes (text_of_lines (flat_map (answer_lines system.now) (answers_of answers.now)))
        (K.device sink.old) (K.device sink.new) result }
{
    for shown in answers {
        write_answer(alloc, system, shown, sink)?;
    }
    Ok(())
}

/// Writes the lines of the answers, between the lines that begin and end the proof part.
pub(crate) fn write_marked<K: Sink>(
    alloc: Global,
    system: &System,
    answers: &[Shown],
    sink: &mut K,
) -> Result<(), Unwritten>
    requires { AllByRecursion (IsWritable system.now) (answers_of answers.now) }
    ensures { Writes (text_of_lines (proof_lines system.now (answers_of answers.now)))
        (K.device sink.old) (K.device sink.new) result }
{
    write_piece(b"proof\n", sink)?;
    write_answers(alloc, system, answers, sink)?;
    write_piece(b"end of proof\n", sink)
}
