//! What is known of a context.

ghost use Rattle.std.specs.Prelude.{◌≡◌, []};
ghost use Rattle.mcs_node.specs.Known.{knowledge_of};

use mcs_base::Vars;
use mcs_rows::Answer;
use std::alloc::Global;

/// What is known of a context: its answers to the questions of the greatest level done, ascending,
/// and what it may supply at this level, in the order of states.
#[derive(Drop)]
pub struct Known {
    pub answers: Vec<Answer>,
    pub supplies: Vec<Vars>,
}

impl Known {
    /// Nothing is known.
    pub(crate) fn nothing(alloc: Global) -> Known
        ensures { knowledge_of result ≡ record { answers = []; supplies = [] } }
    {
        Known {
            answers: Vec::new(alloc),
            supplies: Vec::new(alloc),
        }
    }
}
