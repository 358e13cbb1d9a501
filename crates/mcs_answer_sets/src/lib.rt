//! Whether a certificate shows what the answer sets of a program let its context believe: decided
//! without a search, by checking traces and evaluating rules.
#![tactic(auto)]

mod program;

pub use program::{are_ascending, program_views, rules_hold, view_of};
