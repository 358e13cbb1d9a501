//! The whole run: from the words of the command line to the status.

ghost use Rattle.std.specs.Prelude.{◌≡◌};
ghost use Rattle.mcs_words.specs.Reading.{texts_of};
ghost use Rattle.mcs_crew.specs.Trails.{IsNoTrail, trail_of};
ghost use Rattle.mcs_top.specs.Promise.{KeepsPromise, NamesNoFile};
ghost use Rattle.mcs_top.specs.Trails.{KeepsTrail};

use crate::job::do_job;
use crate::outcome::Outcome;
use mcs_crew::Trail;
use mcs_listing::{Status, tell};
use mcs_ports::{Gate, Shelf, Sink};
use mcs_words::read_words;
use std::alloc::Global;
use std::sync::Wait;
use std::thread::Threads;

/// Does the job that the words ask for. `words` are the words after the program's name.
///
/// - `equilibria FILE` prints the projected equilibria of the system whose text is in FILE, each
///   once, in the order of states.
/// - `solve FILE` prints its minimal diagnoses and its minimal explanations too, in the order of
///   pairs. With `--proof` it also prints the answers on which these depend, each with a
///   certificate.
/// - `grounded FILE` prints those projected equilibria that are grounded. It is refused if the system
///   is not plain, that is, if a context is neither classical nor a normal program.
/// - `check FILE REPORT` prints whether REPORT has such a listing with its proof.
/// - `session FILE SCRIPT` edits the system whose text is in FILE as SCRIPT says, and prints what
///   `solve` prints of it wherever SCRIPT asks for it, with how many answers were new and how many
///   were kept. The budget is that of each listing.
/// - `make NUMBER` reads no file. It prints how many members each list of the generated system of
///   that number has.
///
/// Rounds of questions are played by so many workers as the words say, but by no more than there
/// are contexts. One worker is the caller itself, which then waits for nobody, as it does for
/// `check` and `session`. What is printed does not depend on their number.
///
/// Returns the status. For each status but `Done` and `NotValid` one line is noted. Nothing is
/// written but the output of the job, or a prefix of it. What each status implies is stated by the
/// record `KeepsPromise`. If the words ask for no job that names a file, the shelf is not called.
///
/// The trail shows the last round that several workers played, as the record `KeepsTrail` states.
/// It is empty with fewer than two workers used, and where no system was evaluated.
pub fn run<H: Shelf, K: Sink, G: Gate + Sync, R: Threads + Wait + Sync>(
    rt: &R,
    alloc: Global,
    words: &[String],
    shelf: &mut H,
    sink: &mut K,
    gate: &G,
) -> (Status, Trail)
    ensures kept { KeepsPromise (texts_of words.now) (H.held shelf.old) (H.faults shelf.old)
        (H.faults shelf.new)
        (H.failures shelf.old) (H.failures shelf.new) (K.device sink.old)
        (K.device sink.new) result.0 }
    ensures trail { KeepsTrail (texts_of words.now) (H.held shelf.old) (K.device sink.old).notes
        (K.device sink.new).notes result.0 (trail_of result.1) }
    ensures unread { NamesNoFile (texts_of words.now) → shelf.new ≡ shelf.old }
{
    let mut trail = Trail::nothing(alloc);
    let status = run_job(rt, alloc, words, shelf, sink, gate, &mut trail);
    (status, trail)
}

/// Does the job that the words ask for, and returns the status. What the last round of several
/// workers leaves to be seen is put into `trail`.
fn run_job<H: Shelf, K: Sink, G: Gate + Sync, R: Threads + Wait + Sync>(
    rt: &R,
    alloc: Global,
    words: &[String],
    shelf: &mut H,
    sink: &mut K,
    gate: &G,
    trail: &mut Trail,
) -> Status
    requires { IsNoTrail (trail_of trail.old) }
    ensures kept { KeepsPromise (texts_of words.now) (H.held shelf.old) (H.faults shelf.old)
        (H.faults shelf.new)
        (H.failures shelf.old) (H.failures shelf.new) (K.device sink.old)
        (K.device sink.new) result }
    ensures trail { KeepsTrail (texts_of words.now) (H.held shelf.old) (K.device sink.old).notes
        (K.device sink.new).notes result (trail_of trail.new) }
    ensures unread { NamesNoFile (texts_of words.now) → shelf.new ≡ shelf.old }
{
    let job = match read_words(alloc, words) {
        Ok(job) => job,
        Err(fault) => return tell(alloc, sink, fault.into()),
    };
    match do_job(rt, alloc, &job, shelf, sink, gate, trail) {
        Ok(Outcome::Done) => Status::Done,
        Ok(Outcome::NotValid) => Status::NotValid,
        Err(stop) => tell(alloc, sink, stop),
    }
}
