//! The canonical text of a system, and of the parts of it that reports name.
#![tactic(auto)]

mod item_writer;
mod writer;

pub use writer::{push_read, push_system};
