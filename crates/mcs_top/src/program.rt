//! The whole program, except for its devices.

ghost use Rattle.std.specs.Prelude.{◌≡◌, drop, IfOk, IsErr};
ghost use Rattle.mcs_listing.specs.Endings.{status_number};
ghost use Rattle.mcs_listing.specs.declared.status.Status.TheVariants as statuses;
ghost use Rattle.mcs_top.specs.Programs.{all_given, words_given, LackedMemory};
ghost use Rattle.mcs_top.specs.Promise.{KeepsPromise, NamesNoFile};

use crate::command::run;
use mcs_listing::{Status, note_want_of_memory};
use mcs_ports::{Gate, Shelf, Sink};
use std::alloc::{AllocError, Global};
use std::sync::Wait;
use std::thread::Threads;
use std::{env, io};

/// Runs the program. `words` are the words that the operating system gives; the first, the
/// program's name, is dropped, and the others are passed to `run`. Returns the number of the
/// status, with which the program ends. If the operating system fails to give the words, there are
/// none, and so they ask for no job; but if it fails for want of memory, the run ends for want of
/// memory.
pub fn run_program<H: Shelf, K: Sink, G: Gate + Sync, R: Threads + Wait + Sync>(
    rt: &R,
    alloc: Global,
    words: io::Result<env::Args>,
    shelf: &mut H,
    sink: &mut K,
    gate: &G,
) -> u8
    ensures kept { (status : Status) × (result ≡ status_number status)
        × KeepsPromise (words_given words) (H.held shelf.old) (H.faults shelf.old)
        (H.faults shelf.new)
        (H.failures shelf.old) (H.failures shelf.new) (K.device sink.old)
        (K.device sink.new) status }
    ensures unread { NamesNoFile (words_given words) → shelf.new ≡ shelf.old }
    ensures unheard { LackedMemory words → result ≡ 7 }
{
    done_so(rt, alloc, words, shelf, sink, gate).number()
}

/// Does the job that the given words ask for, and returns the status.
fn done_so<H: Shelf, K: Sink, G: Gate + Sync, R: Threads + Wait + Sync>(
    rt: &R,
    alloc: Global,
    words: io::Result<env::Args>,
    shelf: &mut H,
    sink: &mut K,
    gate: &G,
) -> Status
    ensures kept { KeepsPromise (words_given words) (H.held shelf.old) (H.faults shelf.old)
        (H.faults shelf.new)
        (H.failures shelf.old) (H.failures shelf.new) (K.device sink.old)
        (K.device sink.new) result }
    ensures unread { NamesNoFile (words_given words) → shelf.new ≡ shelf.old }
    ensures unheard { LackedMemory words → result ≡ statuses.OutOfMemory }
{
    match kept_words(alloc, words) {
        Ok(words) => run(rt, alloc, after_name(&words), shelf, sink, gate).0,
        Err(_) => note_want_of_memory(sink),
    }
}

/// The given words, the program's name among them; none if the operating system fails to give them,
/// unless it fails for want of memory.
fn kept_words(alloc: Global, words: io::Result<env::Args>) -> Result<Vec<String>, AllocError>
    ensures kept { IfOk result (λ kept. kept.items ≡ all_given words) }
    ensures unheard { LackedMemory words → IsErr result }
{
    match words {
        Ok(words) => words.collect(alloc),
        Err(error) if error.kind() == io::ErrorKind::OutOfMemory => Err(AllocError),
        Err(_) => Ok(Vec::new(alloc)),
    }
}

/// The words after the first one.
fn after_name(words: &[String]) -> &[String]
    ensures { result.now ≡ drop 1 words.now }
{
    if words.is_empty() { words } else { &words[1..] }
}
