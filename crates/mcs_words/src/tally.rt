//! How many words of each kind there are.

ghost use Rattle.std.specs.Prelude.{◌≡◌, ◌<◌, ◌^◌, ◌↔◌, IsTrue};
ghost use Rattle.mcs_words.specs.Reading.{total_of, no_tally, more_plain, more_values, more_proofs};
ghost use Rattle.mcs_words.specs.Reading.{IsWholeTally};

use crate::setting::Setting;

/// How many plain words there are, how many values of each option, and how often the flag is given.
#[derive(Clone, Copy)]
pub(crate) struct Tally {
    plain: usize,
    budgets: usize,
    workers: usize,
    proofs: usize,
}

impl Tally {
    pub(crate) fn new() -> Tally
        ensures { result ≡ no_tally }
    {
        Tally {
            plain: 0,
            budgets: 0,
            workers: 0,
            proofs: 0,
        }
    }

    /// The counts with one more plain word.
    pub(crate) fn with_plain(self) -> Tally
        requires { total_of self < 2 ^ 63 }
        ensures { result ≡ more_plain self }
    {
        Tally {
            plain: self.plain + 1,
            ..self
        }
    }

    /// The counts with one more value of the option.
    pub(crate) fn with_value(self, setting: Setting) -> Tally
        requires { total_of self < 2 ^ 63 }
        ensures { result ≡ more_values setting self }
    {
        match setting {
            Setting::Budget => Tally {
                budgets: self.budgets + 1,
                ..self
            },
            Setting::Workers => Tally {
                workers: self.workers + 1,
                ..self
            },
        }
    }

    /// The counts with one more flag.
    pub(crate) fn with_proof(self) -> Tally
        requires { total_of self < 2 ^ 63 }
        ensures { result ≡ more_proofs self }
    {
        Tally {
            proofs: self.proofs + 1,
            ..self
        }
    }

    /// Whether there are a job, a file and at most one report, and each option and the flag at most
    /// once.
    pub(crate) fn is_whole(self) -> bool
        ensures { IsTrue result ↔ IsWholeTally self }
    {
        self.plain >= 2
            && self.plain <= 3
            && self.budgets <= 1
            && self.workers <= 1
            && self.proofs <= 1
    }
}
