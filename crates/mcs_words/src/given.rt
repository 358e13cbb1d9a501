//! The words as clap sorts them, before it is decided whether they ask for a job.

ghost use Rattle.std.specs.Prelude.{◌≡◌, Some, MatchResult};
ghost use Rattle.clap.specs.Words.{kind_of};
ghost use Rattle.mcs_words.specs.Reading.{texts_of, command_of, read, IsWholeReading};

use crate::job::WordsFault;
use crate::line::line;
use crate::reading::Place;
use clap::Error;
use clap::error::ErrorKind;
use std::alloc::Global;

/// The plain words, the values of the options, and whether the flag is given.
#[derive(Clone, Copy)]
pub(crate) struct Given<'a> {
    pub(crate) job: &'a str,
    pub(crate) file: &'a str,
    pub(crate) report: Option<&'a str>,
    pub(crate) budget: Option<&'a str>,
    pub(crate) workers: Option<&'a str>,
    pub(crate) proof: bool,
}

/// What clap reads from the words. These have to be words that it accepts, so the only fault is
/// want of memory.
pub(crate) fn given_by<'a>(alloc: Global, words: &'a [String]) -> Result<Given<'a>, WordsFault>
    requires { IsWholeReading (texts_of words.now) }
    ensures { MatchResult result (λ g. read (texts_of words.entry.now) Place.Open
        ≡ Some (command_of g)) (λ fault. fault ≡ WordsFault.Memory) }
{
    let matches = match line(alloc)?.try_get_matches_from(words) {
        Ok(matches) => matches,
        Err(error) => {
            let fault = fault_of(&error);
            drop(error);
            return Err(fault);
        }
    };
    let Some(job) = matches.get_str("job") else {
        unreachable!()
    };
    let Some(file) = matches.get_str("file") else {
        unreachable!()
    };
    let given = Given {
        job,
        file,
        report: matches.get_str("report"),
        budget: matches.get_str("budget"),
        workers: matches.get_str("workers"),
        proof: matches.get_flag("proof"),
    };
    drop(matches);
    Ok(given)
}

/// The fault for an error of clap.
fn fault_of(error: &Error) -> WordsFault
    ensures { kind_of error.now ≡ ErrorKind.OutOfMemory → result ≡ WordsFault.Memory }
{
    match error.kind() {
        ErrorKind::OutOfMemory => WordsFault::Memory,
        _ => WordsFault::Usage,
    }
}
