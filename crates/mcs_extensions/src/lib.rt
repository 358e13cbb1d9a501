//! Whether a certificate shows the extensions of a default theory, and what they let its context
//! believe: decided without a search, by checking traces and evaluating formulas.
#![tactic(auto)]

mod absence;
mod default;
mod order;
mod theory;
mod verdict;

pub use default::default_views;
pub use order::is_member;
pub use theory::{chosen, facts_with, generated, negated, negations, prerequisites, push_added};
pub use verdict::{Judged, judged_as, judged_by};
