//! From words to a job.

ghost use Rattle.std.specs.Prelude.{◌≡◌, ◌+◌, ◌≤◌, ◌<◌, ◌^◌, Option, None, option_map, MatchOption};
ghost use Rattle.std.specs.Prelude.{MatchResult, IfSome};
ghost use Rattle.mcs_words.specs.Commands.{Command, Request, IsJobOf};
ghost use Rattle.mcs_words.specs.Reading.{texts_of, request_of, step, open_step, kind, read};
ghost use Rattle.mcs_words.specs.Reading.{counted_command, tally_of, total_of};

use crate::asked::job;
use crate::given::given_by;
use crate::job::{Job, WordsFault};
use crate::kind::{Kind, begins_with_dash, kind_of};
use crate::setting::Setting;
use crate::tally::Tally;
use std::alloc::Global;

/// The position of a word among the others.
#[derive(Clone, Copy)]
pub(crate) enum Place {
    /// Before the first `--`.
    Open,
    /// After the name of an option; the word is its value.
    Value(Setting),
    /// After the first `--`.
    Closed,
}

/// The job that the words ask for. `words` are those after the program's name.
///
/// - The job is `equilibria FILE`, `solve FILE`, `grounded FILE`, `cheapest FILE [REPORT]`,
///   `check FILE REPORT`, `session FILE SCRIPT` or `make NUMBER`.
/// - The options `--budget N` and `--workers N` and the flag `--proof` may be anywhere before `--`,
///   each at most once. An option may also be written `--budget=N`. After `--` every word is plain.
/// - FILE, REPORT and SCRIPT are not empty and not `-`.
/// - NUMBER and N are one or more digits. NUMBER is 0 to 4,294,967,295. The budget is 1 to
///   4,294,967,295, by default 100,000. The workers are 1 to 64, by default 1.
///
/// The options and the flag are allowed for each job. For `check`, and for `cheapest` with REPORT,
/// they change nothing. For `session` the workers change nothing. The flag changes `solve` alone.
///
/// `Usage` is returned exactly if the words ask for no job, unless `Memory` is returned in its
/// place.
pub fn read_words(alloc: Global, words: &[String]) -> Result<Job, WordsFault>
    ensures { MatchResult result
        (λ job. IsJobOf (texts_of words.now) (request_of job))
        (λ fault. fault ≡ WordsFault.Usage → (request : Request)
        → ¬ IsJobOf (texts_of words.now) request) }
{
    match tally(words) {
        None => Err(WordsFault::Usage),
        Some(tally) => {
            if !tally.is_whole() {
                return Err(WordsFault::Usage);
            }
            match given_by(alloc, words) {
                Ok(given) => job(alloc, &given),
                Err(fault) => Err(fault),
            }
        }
    }
}

/// How many words of each kind there are, or `None` exactly if one of them is wrong.
fn tally(words: &[String]) -> Option<Tally>
    ensures { result ≡ option_map tally_of (read (texts_of words.now) Place.Open) }
{
    let mut tally = Tally::new();
    let mut place = Place::Open;
    for word in words {
        match take(tally, place, word.as_str()) {
            Some((more, next)) => {
                tally = more;
                place = next;
            }
            None => return None,
        }
    }
    match place {
        Place::Open | Place::Closed => Some(tally),
        Place::Value(_) => None,
    }
}

/// Counts the next word, and returns the position of the one after it.
fn take(tally: Tally, place: Place, word: &str) -> Option<(Tally, Place)>
    requires { total_of tally < 2 ^ 63 }
    ensures read { (rest : Place → Option Command)
        → MatchOption result (step place word.now rest ≡ None)
        (λ p. option_map (counted_command p.0) (rest p.1)
        ≡ option_map (counted_command tally) (step place word.now rest)) }
    ensures few { IfSome result (λ p. total_of p.0 ≤ total_of tally + 1) }
{
    match place {
        Place::Open => take_open(tally, word),
        Place::Value(setting) => {
            if begins_with_dash(word) {
                return None;
            }
            Some((tally.with_value(setting), Place::Open))
        }
        Place::Closed => Some((tally.with_plain(), Place::Closed)),
    }
}

/// Counts the next word, which is before the first `--` and no option's value.
fn take_open(tally: Tally, word: &str) -> Option<(Tally, Place)>
    requires { total_of tally < 2 ^ 63 }
    ensures read { (rest : Place → Option Command)
        → MatchOption result (open_step (kind word.now) word.now rest ≡ None)
        (λ p. option_map (counted_command p.0) (rest p.1)
        ≡ option_map (counted_command tally) (open_step (kind word.now) word.now rest)) }
    ensures few { IfSome result (λ p. total_of p.0 ≤ total_of tally + 1) }
{
    match kind_of(word) {
        Kind::Dashes => Some((tally, Place::Closed)),
        Kind::Name(setting) => Some((tally, Place::Value(setting))),
        Kind::Joined(setting) => Some((tally.with_value(setting), Place::Open)),
        Kind::Flag => Some((tally.with_proof(), Place::Open)),
        Kind::Plain => Some((tally.with_plain(), Place::Open)),
        Kind::Unknown => None,
    }
}
