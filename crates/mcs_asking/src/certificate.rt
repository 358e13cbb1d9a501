//! Certificates of the answers of a context.

use mcs_trace::{ClassicalCert, DefaultCert, ProgramCert};

/// A certificate of the views that a context accepts, by the kind of the context.
pub enum AnswerCert {
    /// For each belief, that it follows or that it does not.
    Classical(ClassicalCert),
    /// For each set of defaults, that it generates an extension or that it does not.
    Default(DefaultCert),
    /// A model for each view, and a trace that there is no other view.
    Program(ProgramCert),
}

impl Drop for AnswerCert {
    fn drop(self) {
        match self {
            AnswerCert::Classical(_) => {}
            AnswerCert::Default(_) => {}
            AnswerCert::Program(_) => {}
        }
    }
}
