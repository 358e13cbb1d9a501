//! How a job ends that is not stopped.

/// How a job ended that was not stopped.
#[derive(Clone, Copy, Debug, PartialEq, Eq)]
pub(crate) enum Outcome {
    /// The job was done.
    Done,
    /// The job was `check`, and the report is not valid.
    NotValid,
}
