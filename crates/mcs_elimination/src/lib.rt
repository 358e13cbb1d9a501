//! The cheapest diagnoses of the tables of all contexts, without a list of all minimal ones: the
//! elimination of variables over costs.
#![tactic(auto)]

mod cheapest;
mod cheapest_rows;
mod dear;
mod lightest;
mod run;
mod settled;

pub use cheapest::cheapest_in;
pub use dear::dear_marks;
pub use settled::{cheapest_among, cheapest_at};
