//! What is to be listed of a system, and by what means.

use mcs_work::Task;

/// What is to be listed of a system, and by what means.
#[derive(Clone, Copy, Debug, PartialEq, Eq)]
pub(crate) struct Assignment {
    pub(crate) task: Task,
    /// The most questions of a level that may be asked.
    pub(crate) budget: u64,
    /// How many workers are to be used; no more than there are contexts ever are.
    pub(crate) workers: u32,
    /// Whether each answer is kept with a certificate.
    pub(crate) keep: bool,
}
