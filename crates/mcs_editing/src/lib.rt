//! The work on a script of edits: a system is edited and listed again and again, and what was
//! answered for one listing is not asked for a later one.
#![tactic(auto)]

mod asker;
mod course;
mod laws;
mod lines;
mod solving;

pub use asker::SolverAsker;
pub use course::list_script;
pub use laws::{
    scripts_can_be_listed, session_texts_are_unambiguous, session_texts_exist,
    texts_before_are_unambiguous, worked_session,
};
