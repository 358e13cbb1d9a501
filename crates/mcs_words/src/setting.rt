//! The options of the command line.

ghost use Rattle.std.specs.Prelude.{◌≡◌};
ghost use Rattle.mcs_words.specs.Commands.{least_of, most_of, default_number};

/// An option that takes a number.
#[derive(Clone, Copy, Debug, PartialEq, Eq)]
pub enum Setting {
    /// `--budget`: the greatest number of questions of a run.
    Budget,
    /// `--workers`: the number of threads.
    Workers,
}

impl Setting {
    /// The least value of the option.
    pub(crate) fn least(self) -> u64
        ensures { result ≡ least_of self }
    {
        1
    }

    /// The greatest value of the option.
    pub(crate) fn most(self) -> u64
        ensures { result ≡ most_of self }
    {
        match self {
            Setting::Budget => 4_294_967_295,
            Setting::Workers => 64,
        }
    }

    /// The value of the option if it is not given.
    pub(crate) fn default(self) -> u64
        ensures { result ≡ default_number self }
    {
        match self {
            Setting::Budget => 100_000,
            Setting::Workers => 1,
        }
    }
}
