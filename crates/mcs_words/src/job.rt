//! The jobs, and why words ask for none.

ghost use Rattle.std.specs.Prelude.{◌≡◌};
ghost use Rattle.mcs_words.specs.declared.job.WordsFault.TheVariants.{Memory};

use std::alloc::AllocError;

/// A job of the program. Names of files are not empty and not `-`. A budget (the greatest number of
/// questions of the run) is 1 to 4,294,967,295. A number of workers (threads) is 1 to 64.
#[derive(Debug, PartialEq, Eq)]
pub enum Job {
    /// To list the equilibria of the system in the file.
    Equilibria {
        file: String,
        budget: u64,
        workers: u32,
    },
    /// To list the equilibria, minimal diagnoses and minimal explanations of the system in the
    /// file, with or without a proof.
    Solve {
        file: String,
        budget: u64,
        workers: u32,
        proof: bool,
    },
    /// To check the report, which is a file too, against the system in the file.
    Check {
        file: String,
        report: String,
    },
    /// To solve the system generated for the number, which is at most 4,294,967,295.
    Make {
        number: u64,
        budget: u64,
        workers: u32,
    },
    /// To list the grounded equilibria of the system in the file.
    Grounded {
        file: String,
        budget: u64,
        workers: u32,
    },
    /// To list the diagnoses of least cost of the system in the file. The budget and the workers
    /// are for a run without a report. With one, which is a file too, the report is checked, and
    /// the diagnoses are found from its answers.
    Cheapest {
        file: String,
        report: Option<String>,
        budget: u64,
        workers: u32,
    },
    /// To edit the system in the file by the script, which is a file too, and to list what it has
    /// wherever the script asks for it. The budget is that of each listing.
    Session {
        file: String,
        script: String,
        budget: u64,
    },
}

impl Drop for Job {
    fn drop(self) {
        match self {
            Job::Equilibria {
                file: _,
                budget: _,
                workers: _,
            } => {}
            Job::Solve {
                file: _,
                budget: _,
                workers: _,
                proof: _,
            } => {}
            Job::Check { file: _, report: _ } => {}
            Job::Make {
                number: _,
                budget: _,
                workers: _,
            } => {}
            Job::Grounded {
                file: _,
                budget: _,
                workers: _,
            } => {}
            Job::Cheapest {
                file: _,
                report: _,
                budget: _,
                workers: _,
            } => {}
            Job::Session {
                file: _,
                script: _,
                budget: _,
            } => {}
        }
    }
}

/// Why words ask for no job.
#[derive(Clone, Copy, Debug, PartialEq, Eq)]
pub enum WordsFault {
    /// The words ask for no job.
    Usage,
    /// Memory ran out.
    Memory,
}

impl From<AllocError> for WordsFault {
    ghost from_gives = { λ _ fault. fault ≡ Memory };

    fn from(_refused: AllocError) -> WordsFault {
        WordsFault::Memory
    }
}
