//! A search for an assignment: clauses are added, attached and removed, decisions are ordered,
//! conflicts are learnt from, and a trace is made once a clause is false at level 0.
#![tactic(auto)]

mod adding;
mod order;
mod part;
mod running;
mod searching;
mod trace;

pub use adding::{add, attach, attach_next, cut, keep, push_unwatched, settle_all, widen};
pub use order::Order;
pub use part::search_left;
pub use running::{run, run_or_restore};
pub use searching::{go_back, search};
pub use trace::trace_of;
