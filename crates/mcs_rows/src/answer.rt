//! What a context answered.

use mcs_base::{Active, Vars};

/// What was asked of a context, a set of the rules into it, and the parts that it accepts with
/// their heads: each once, in the order of states.
pub struct Answer {
    pub active: Active,
    pub parts: Vec<Vars>,
}

impl Drop for Answer {
    fn drop(self) {
        let Answer {
            active: _,
            parts: _,
        } = self;
    }
}
