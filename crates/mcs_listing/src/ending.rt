//! Why a run stops before its end, and the line that is noted for it.

ghost use Rattle.std.specs.Prelude.{◌≡◌, ◌++◌, OnOk};
ghost use Rattle.mcs_listing.specs.Endings.{line_of, refusal_line, unfinished_line, fault_line};
ghost use Rattle.mcs_listing.specs.Endings.{not_plain_line};
ghost use Rattle.mcs_listing.specs.Endings.{told_limit, status_of, stop_for_words, stop_for_text};
ghost use Rattle.mcs_listing.specs.Endings.{stop_for_script, stop_for_unwritten, stop_for_work};
ghost use Rattle.mcs_listing.specs.Endings.{IsEndingTold};
ghost use Rattle.mcs_listing.specs.Endings.{IsToldAs};
ghost use Rattle.mcs_listing.specs.declared.ending.Stop.TheVariants as stops;

use crate::status::Status;
use mcs_base::{Memory, Text};
use mcs_language::TextFault;
use mcs_ports::Sink;
use mcs_system::{Limit, Name};
use mcs_text::Unwritten;
use mcs_words::WordsFault;
use mcs_work::WorkStop;
use std::alloc::{AllocError, Global};

/// Why a file is refused.
#[derive(Drop)]
pub enum Refusal {
    /// The file is longer than a system text may be.
    TooLong,
    /// The report is longer than one may be.
    ReportTooLong,
    /// The script is longer than one may be.
    ScriptTooLong,
    /// The text has a fault: its number, the offset of its token, and for number 5 the limit.
    Text {
        number: u8,
        offset: usize,
        limit: Option<Limit>,
    },
    /// The script has a fault: its number, the offset at which it is told, and for number 5 the
    /// limit.
    Script {
        number: u8,
        offset: usize,
        limit: Option<Limit>,
    },
    /// The system is not plain: the name of its lowest context that is not.
    NotPlain(Name),
}

/// Why a run stops before its end.
#[derive(Drop)]
pub enum Stop {
    /// The words ask for no job.
    Usage,
    /// A file is refused.
    Refused(Refusal),
    /// The system has more questions of the level than the budget.
    Unfinished { level: u32, budget: u64 },
    /// A file could not be read.
    ReadFault,
    /// The output could not be written.
    WriteFault,
    /// Memory ran out.
    Memory,
}

impl From<Memory> for Stop {
    ghost from_gives = { λ _ stop. stop ≡ stops.Memory };

    fn from(_want: Memory) -> Stop {
        Stop::Memory
    }
}

impl From<AllocError> for Stop {
    ghost from_gives = { λ _ stop. stop ≡ stops.Memory };

    fn from(_refused: AllocError) -> Stop {
        Stop::Memory
    }
}

impl From<WordsFault> for Stop {
    ghost from_gives = { λ fault stop. stop ≡ stop_for_words fault };

    fn from(fault: WordsFault) -> Stop {
        match fault {
            WordsFault::Usage => Stop::Usage,
            WordsFault::Memory => Stop::Memory,
        }
    }
}

impl From<TextFault> for Stop {
    ghost from_gives = { λ fault stop. stop ≡ stop_for_text fault };

    fn from(fault: TextFault) -> Stop {
        match fault {
            TextFault::Fault {
                number,
                offset,
                limit,
            } => Stop::Refused(Refusal::Text {
                number,
                offset,
                limit,
            }),
            TextFault::Memory => Stop::Memory,
        }
    }
}

impl From<Unwritten> for Stop {
    ghost from_gives = { λ why stop. stop ≡ stop_for_unwritten why };

    fn from(why: Unwritten) -> Stop {
        match why {
            Unwritten::Fault => Stop::WriteFault,
            Unwritten::Memory => Stop::Memory,
        }
    }
}

/// Why the run stops, if its script is no script of edits for this reason.
pub(crate) fn stop_for_script(fault: TextFault) -> Stop
    ensures { result ≡ stop_for_script fault }
{
    match fault {
        TextFault::Fault {
            number,
            offset,
            limit,
        } => Stop::Refused(Refusal::Script {
            number,
            offset,
            limit,
        }),
        TextFault::Memory => Stop::Memory,
    }
}

/// Why the run stops, if its work stops for this reason. `budget` is that of the run. No oracle of
/// a run can miss an answer.
pub fn stop_for_work(stop: WorkStop, budget: u64) -> Stop
    ensures { result ≡ stop_for_work budget stop }
{
    match stop {
        WorkStop::Write => Stop::WriteFault,
        WorkStop::Spent { level } => Stop::Unfinished { level, budget },
        WorkStop::Missing { .. } | WorkStop::Memory => Stop::Memory,
    }
}

impl Stop {
    /// The status of a run that stops for this reason.
    fn status(&self) -> Status
        ensures { result ≡ status_of self.now }
    {
        match self {
            Stop::Usage => Status::Usage,
            Stop::Refused(_) => Status::Refused,
            Stop::Unfinished { .. } => Status::Unfinished,
            Stop::ReadFault => Status::ReadFault,
            Stop::WriteFault => Status::WriteFault,
            Stop::Memory => Status::OutOfMemory,
        }
    }

    /// Appends the line that is noted, with its line feed.
    fn push_line(&self, line: &mut Text) -> Result<(), Memory>
        ensures { OnOk result (line.new ≡ line.old ++ line_of self.now) }
    {
        match self {
            Stop::Usage => line.push(
                b"mcs: usage: mcs JOB FILE [REPORT] [--budget N] [--workers N] [--proof]\n",
            ),
            Stop::Refused(why) => push_refusal(line, why),
            Stop::Unfinished { level, budget } => push_unfinished(line, *level, *budget),
            Stop::ReadFault => line.push(b"mcs: read fault\n"),
            Stop::WriteFault => line.push(WRITE_FAULT),
            Stop::Memory => line.push(OUT_OF_MEMORY),
        }
    }
}

/// The line that is noted if a write failed.
const WRITE_FAULT: &[u8] = b"mcs: write fault\n";

/// The line that is noted if memory ran out.
const OUT_OF_MEMORY: &[u8] = b"mcs: out of memory\n";

/// Appends the line of a refusal.
fn push_refusal(line: &mut Text, why: &Refusal) -> Result<(), Memory>
    ensures { OnOk result (line.new ≡ line.old ++ refusal_line why.now) }
{
    match why {
        Refusal::TooLong => line.push(b"mcs: refused: file longer than 1048576\n"),
        Refusal::ReportTooLong => line.push(b"mcs: refused: report longer than 268435456\n"),
        Refusal::ScriptTooLong => line.push(b"mcs: refused: script longer than 1048576\n"),
        Refusal::Text {
            number,
            offset,
            limit,
        } => push_fault(line, b"mcs: refused: F", *number, *offset, *limit),
        Refusal::Script {
            number,
            offset,
            limit,
        } => push_fault(line, b"mcs: refused: script F", *number, *offset, *limit),
        Refusal::NotPlain(name) => push_not_plain(line, name),
    }
}

/// Appends the line of a run that stops at this level because the budget is too small.
#[tactic(auto, unfolding(crate::specs::Endings::unfinished_line))]
fn push_unfinished(line: &mut Text, level: u32, budget: u64) -> Result<(), Memory>
    ensures { OnOk result (line.new ≡ line.old ++ unfinished_line level budget) }
{
    line.push(b"mcs: unfinished at level ")?;
    line.push_number(level as u64)?;
    line.push(b", budget ")?;
    line.push_number(budget)?;
    line.push(b"\n")
}

/// Appends the line of a text with this fault at this offset. `front` is what stands before the
/// number of the fault.
#[tactic(auto, unfolding(crate::specs::Endings::fault_line))]
fn push_fault(
    line: &mut Text,
    front: &[u8],
    number: u8,
    offset: usize,
    limit: Option<Limit>,
) -> Result<(), Memory>
    ensures { OnOk result (line.new ≡ line.old ++ fault_line front.now number offset limit) }
{
    line.push(front)?;
    line.push_number(number as u64)?;
    line.push(b" at ")?;
    line.push_number(offset as u64)?;
    push_limit(line, limit)?;
    line.push(b"\n")
}

/// Appends the line of a system that is not plain. The name is that of its lowest context that is
/// not.
#[tactic(auto, unfolding(crate::specs::Endings::not_plain_line))]
fn push_not_plain(line: &mut Text, name: &Name) -> Result<(), Memory>
    ensures { OnOk result (line.new ≡ line.old ++ not_plain_line name.now) }
{
    line.push(b"mcs: refused: not plain: ")?;
    line.push(name.bytes())?;
    line.push(b"\n")
}

/// Appends the limit, if there is one.
fn push_limit(line: &mut Text, limit: Option<Limit>) -> Result<(), Memory>
    ensures { OnOk result (line.new ≡ line.old ++ told_limit limit) }
{
    let Some(limit) = limit else {
        return Ok(());
    };
    line.push(b": ")?;
    line.push(limit.name())?;
    line.push(b" ")?;
    line.push_number(limit.most() as u64)
}

/// Notes the line of the stop, and returns its status. If there is no memory for the line, the want
/// of memory is noted and returned instead. The line of a write fault needs no memory.
pub fn tell<K: Sink>(alloc: Global, sink: &mut K, stop: Stop) -> Status
    ensures told { IsEndingTold stop result (K.device sink.old) (K.device sink.new) }
    ensures fault { stop ≡ stops.WriteFault → result ≡ Status.WriteFault }
    ensures written { (K.device sink.new).written ≡ (K.device sink.old).written }
    ensures faults { (K.device sink.new).faults ≡ (K.device sink.old).faults }
{
    if let Stop::WriteFault = stop {
        sink.note(WRITE_FAULT);
        return Status::WriteFault;
    }
    let mut line = Text::new(alloc);
    if stop.push_line(&mut line).is_err() {
        return note_want_of_memory(sink);
    }
    sink.note(line.bytes());
    stop.status()
}

/// Notes that memory ran out, and returns the status for this.
pub fn note_want_of_memory<K: Sink>(sink: &mut K) -> Status
    ensures told { IsToldAs stops.Memory result (K.device sink.old) (K.device sink.new) }
    ensures written { (K.device sink.new).written ≡ (K.device sink.old).written }
    ensures faults { (K.device sink.new).faults ≡ (K.device sink.old).faults }
{
    sink.note(OUT_OF_MEMORY);
    Status::OutOfMemory
}
