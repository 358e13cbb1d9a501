//! What a run does that needs neither threads nor the check of reports: its files are read, a
//! system is listed within a budget by whatever plays its rounds, and how the run ends is told.
#![tactic(auto)]

mod answers;
mod beginning;
mod ending;
mod number;
mod reading;
mod status;
mod working;

pub use answers::write_answers;
pub use beginning::{Beginning, begin_evaluation, begin_with, shared};
pub use ending::{Refusal, Stop, note_want_of_memory, stop_for_work, tell};
pub use number::print_number;
pub use reading::{report_in, script_in, system_for, system_in};
pub use status::Status;
pub use working::{work_by, work_in_turn};
