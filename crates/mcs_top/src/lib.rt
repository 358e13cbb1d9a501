//! The one call that the program makes: from the words of the command line and the bytes of a file
//! to the printed listing and the number of the status.
#![tactic(auto)]

mod assignment;
mod checking;
mod command;
mod evaluating;
mod examining;
mod job;
mod listing;
mod making;
mod outcome;
mod program;
mod proving;
mod reported;
mod session;
mod threads;

pub use command::run;
pub use mcs_crew::Trail;
pub use mcs_listing::Status;
pub use mcs_work::{Task, WorkStop, work};
pub use program::run_program;
