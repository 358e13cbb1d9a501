//! The faults of texts: which fault the next token has, after those before it.
#![tactic(auto)]

mod fault;
mod limits;
mod names;
mod record;
mod told;
mod watch;

pub use fault::{Fault, TextFault};
pub use told::told_fault;
pub use watch::{Subject, Watch};
