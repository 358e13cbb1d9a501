//! Whether a set of defaults of a theory is grounded: whether their prerequisites follow one after
//! the other.
#![tactic(auto)]

mod asked;
mod grounding;

pub use asked::Theory;
pub use grounding::{Grounding, tell_order};
