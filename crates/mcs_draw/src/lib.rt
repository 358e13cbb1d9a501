//! The budget word: several threads draw from one word. Each draw adds its amount in one atomic
//! step and returns the new total.
#![tactic(auto)]

mod account;
mod budget;
mod closed;
mod draw;
mod laws;
mod seat;

pub use closed::Closed;
pub use draw::Draw;
pub use laws::{
    draws_keep_the_rule, joins_keep_the_rule, splits_keep_the_rule, whole_seats_are_alone,
    words_begin_with_the_rule,
};
pub use seat::Seat;
