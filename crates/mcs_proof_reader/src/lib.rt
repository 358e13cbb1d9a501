//! A reader of reports: the listing, then answers with their certificates.
#![tactic(auto)]

mod answer;
mod keep;
mod listing;
mod question;
mod report;
mod texts;

pub use answer::{ReportAnswer, take_answer, take_outputs, take_state};
pub use keep::Keep;
pub use question::take_states;
pub use report::{KeptReport, Report, read_kept, read_report};
pub use texts::{Texts, just_counts, name_texts};
