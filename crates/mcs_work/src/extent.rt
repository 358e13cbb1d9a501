//! How much of a whole listing is printed.

ghost use Rattle.std.specs.Prelude.{◌≡◌};
ghost use Rattle.mcs_work.specs.Extents.{task_of};

use crate::task::Task;

/// How much of a whole listing is printed.
#[derive(Clone, Copy)]
pub(crate) enum Extent {
    /// All of it.
    Whole,
    /// The verdict and the end line.
    Counts,
}

impl Extent {
    /// The task that prints this much.
    pub(crate) fn task(self) -> Task
        ensures { result ≡ task_of self }
    {
        match self {
            Extent::Whole => Task::Solve,
            Extent::Counts => Task::Make,
        }
    }
}
