//! The jobs by their names.

ghost use Rattle.std.specs.Prelude.{◌≡◌, MatchOption};
ghost use Rattle.mcs_words.specs.Reading.{task_name};

/// The job that the first plain word names.
#[derive(Clone, Copy)]
pub(crate) enum Task {
    /// `equilibria`.
    Equilibria,
    /// `solve`.
    Solve,
    /// `check`.
    Check,
    /// `make`.
    Make,
    /// `grounded`.
    Grounded,
    /// `cheapest`.
    Cheapest,
    /// `session`.
    Session,
}

/// The job that the word names.
pub(crate) fn task_of(word: &str) -> Option<Task>
    ensures { MatchOption result
        ((task : Task) → ¬ (word.now ≡ task_name task)) (λ task. word.now ≡ task_name task) }
{
    if word == "equilibria" {
        Some(Task::Equilibria)
    } else if word == "solve" {
        Some(Task::Solve)
    } else if word == "check" {
        Some(Task::Check)
    } else if word == "make" {
        Some(Task::Make)
    } else if word == "grounded" {
        Some(Task::Grounded)
    } else if word == "cheapest" {
        Some(Task::Cheapest)
    } else if word == "session" {
        Some(Task::Session)
    } else {
        None
    }
}
