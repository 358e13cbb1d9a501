//! The job that the words ask for, once they are sorted.

ghost use Rattle.std.specs.Prelude.{◌≡◌, ◌∷◌, [], ◌≤◌, ℕ, MatchOption, MatchResult, IfSome};
ghost use Rattle.std.specs.Prelude.{option_map, string_bytes};
ghost use Rattle.std.specs.Bool.{MatchBool};
ghost use Rattle.mcs_base.specs.Numbers.{IsNumber};
ghost use Rattle.mcs_words.specs.Commands.{Request, IsFile, IsChosen, AsksFor, most_of, most_made};
ghost use Rattle.mcs_words.specs.Commands.{report_word};
ghost use Rattle.mcs_words.specs.Reading.{request_of, command_of, value_list, targets_of};
ghost use Rattle.mcs_words.specs.Reading.{IsOneFile, AreTwoFiles, AreOneOrTwoFiles, IsOneNumber};
ghost use Rattle.mcs_words.specs.declared.setting.Setting.TheVariants.{Budget, Workers};

use crate::given::Given;
use crate::job::{Job, WordsFault};
use crate::setting::Setting;
use crate::task::{Task, task_of};
use mcs_base::number;
use std::alloc::Global;

/// The greatest number of a generated system.
const MOST_MADE: u64 = 4_294_967_295;

/// The job that the given words and values ask for. `Usage` is returned exactly if they ask for
/// none, unless `Memory` is returned in its place.
pub(crate) fn job(alloc: Global, given: &Given) -> Result<Job, WordsFault>
    ensures { MatchResult result
        (λ job. AsksFor (command_of given.now) (request_of job))
        (λ fault. fault ≡ WordsFault.Usage → (request : Request)
        → ¬ AsksFor (command_of given.now) request) }
{
    let Some(task) = task_of(given.job) else {
        return Err(WordsFault::Usage);
    };
    let Some((budget, workers)) = numbers(given) else {
        return Err(WordsFault::Usage);
    };
    match task {
        Task::Equilibria => {
            let file = one_file(alloc, given)?;
            Ok(Job::Equilibria {
                file,
                budget,
                workers,
            })
        }
        Task::Solve => {
            let file = one_file(alloc, given)?;
            Ok(Job::Solve {
                file,
                budget,
                workers,
                proof: given.proof,
            })
        }
        Task::Check => {
            let (file, report) = two_files(alloc, given)?;
            Ok(Job::Check { file, report })
        }
        Task::Make => {
            let number = one_number(given)?;
            Ok(Job::Make {
                number,
                budget,
                workers,
            })
        }
        Task::Grounded => {
            let file = one_file(alloc, given)?;
            Ok(Job::Grounded {
                file,
                budget,
                workers,
            })
        }
        Task::Cheapest => {
            let (file, report) = one_or_two_files(alloc, given)?;
            Ok(Job::Cheapest {
                file,
                report,
                budget,
                workers,
            })
        }
        Task::Session => {
            let (file, script) = two_files(alloc, given)?;
            Ok(Job::Session {
                file,
                script,
                budget,
            })
        }
    }
}

/// The budget and the number of workers, if both are in their range.
fn numbers(given: &Given) -> Option<(u64, u32)>
    ensures { MatchOption result
        ((budget workers : ℕ) → IsChosen Budget (value_list given.now.budget) budget
        → ¬ IsChosen Workers (value_list given.now.workers) workers)
        (λ p. IsChosen Budget (value_list given.now.budget) p.0
        × IsChosen Workers (value_list given.now.workers) p.1) }
{
    let budget = chosen(Setting::Budget, given.budget)?;
    let workers = chosen(Setting::Workers, given.workers)?;
    Some((budget, workers as u32))
}

/// The number that this value of the option denotes, or the default if there is no value; `None` if
/// it is not in the range.
fn chosen(setting: Setting, value: Option<&str>) -> Option<u64>
    ensures number { MatchOption result
        ((n : ℕ) → ¬ IsChosen setting (value_list value.entry) n)
        (λ n. IsChosen setting (value_list value.entry) n) }
    ensures most { IfSome result (λ n. n ≤ most_of setting) }
{
    match value {
        None => Some(setting.default()),
        Some(value) => number(value.as_bytes(), setting.least(), setting.most()),
    }
}

/// The file, if no report follows it.
fn one_file(alloc: Global, given: &Given) -> Result<String, WordsFault>
    ensures { MatchResult result
        (λ file. (targets_of given.now ≡ string_bytes file ∷ []) × IsFile (string_bytes file))
        (λ fault. fault ≡ WordsFault.Usage → ¬ IsOneFile (targets_of given.now)) }
{
    match given.report {
        None => file_named(alloc, given.file),
        Some(_) => Err(WordsFault::Usage),
    }
}

/// The file and the one after it, if both can name a file.
fn two_files(alloc: Global, given: &Given) -> Result<(String, String), WordsFault>
    ensures { MatchResult result
        (λ p. (targets_of given.now ≡ string_bytes p.0 ∷ string_bytes p.1 ∷ [])
        × IsFile (string_bytes p.0) × IsFile (string_bytes p.1))
        (λ fault. fault ≡ WordsFault.Usage → ¬ AreTwoFiles (targets_of given.now)) }
{
    let Some(report) = given.report else {
        return Err(WordsFault::Usage);
    };
    let file = file_named(alloc, given.file)?;
    let report = file_named(alloc, report)?;
    Ok((file, report))
}

/// The file, and the report if one follows it, if each can name a file.
fn one_or_two_files(alloc: Global, given: &Given) -> Result<(String, Option<String>), WordsFault>
    ensures { MatchResult result
        (λ p. (targets_of given.now ≡ string_bytes p.0 ∷ report_word (option_map string_bytes p.1))
        × IsFile (string_bytes p.0) × IfSome (option_map string_bytes p.1) IsFile)
        (λ fault. fault ≡ WordsFault.Usage → ¬ AreOneOrTwoFiles (targets_of given.now)) }
{
    let file = file_named(alloc, given.file)?;
    match given.report {
        None => Ok((file, None)),
        Some(report) => {
            let report = file_named(alloc, report)?;
            Ok((file, Some(report)))
        }
    }
}

/// The number, if no report follows it.
fn one_number(given: &Given) -> Result<u64, WordsFault>
    ensures { MatchResult result
        (λ n. (targets_of given.now ≡ given.now.file.now ∷ [])
        × IsNumber 0 most_made given.now.file.now n)
        (λ fault. (fault ≡ WordsFault.Usage) × ¬ IsOneNumber (targets_of given.now)) }
{
    if given.report.is_some() {
        return Err(WordsFault::Usage);
    }
    number(given.file.as_bytes(), 0, MOST_MADE).ok_or(WordsFault::Usage)
}

/// The word as the name of a file.
fn file_named(alloc: Global, word: &str) -> Result<String, WordsFault>
    ensures { MatchResult result
        (λ file. (string_bytes file ≡ word.now) × IsFile word.now)
        (λ fault. fault ≡ WordsFault.Usage → ¬ IsFile word.now) }
{
    if !is_file(word) {
        return Err(WordsFault::Usage);
    }
    Ok(String::from_str(alloc, word)?)
}

/// Whether the word can be the name of a file.
fn is_file(word: &str) -> bool
    ensures { MatchBool result (IsFile word.now) (¬ IsFile word.now) }
{
    !word.is_empty() && word != "-"
}
