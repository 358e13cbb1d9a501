//! What a context's answers come to: what it may supply, its local rows, minimal ones, and those
//! that a pair makes.
#![tactic(auto)]

mod all;
mod answer;
mod changed;
mod finding;
mod fitting;
mod local;
mod marks;
mod minimal;
mod nearest;
mod states;
mod supply;

pub use all::local_rows;
pub use answer::Answer;
pub use changed::changed_rows;
pub use minimal::minimal_rows;
pub use supply::supplies;
