//! The status of a run.

ghost use Rattle.std.specs.Prelude.{◌≡◌};
ghost use Rattle.mcs_listing.specs.Endings.{status_number};

/// How a run ended.
#[derive(Clone, Copy, Debug, PartialEq, Eq)]
pub enum Status {
    /// The job was done.
    Done,
    /// The report that was checked is not valid.
    NotValid,
    /// The words ask for no job.
    Usage,
    /// A file is too long, the text is not the text of a system, or the system is not plain where
    /// it has to be.
    Refused,
    /// The system has more questions than the budget.
    Unfinished,
    /// A file could not be read.
    ReadFault,
    /// The output could not be written.
    WriteFault,
    /// Memory ran out.
    OutOfMemory,
}

impl Status {
    /// The number with which the program ends:
    ///
    /// - 0: the job was done;
    /// - 1: the report is not valid;
    /// - 2: the words ask for no job;
    /// - 3: a file is refused;
    /// - 4: the budget was too small;
    /// - 5: a read failed;
    /// - 6: a write failed;
    /// - 7: memory ran out.
    pub fn number(self) -> u8
        ensures { result ≡ status_number self }
    {
        match self {
            Status::Done => 0,
            Status::NotValid => 1,
            Status::Usage => 2,
            Status::Refused => 3,
            Status::Unfinished => 4,
            Status::ReadFault => 5,
            Status::WriteFault => 6,
            Status::OutOfMemory => 7,
        }
    }
}
