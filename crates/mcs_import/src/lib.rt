//! Which contexts a context imports, in which order contexts are asked, and what each of them is
//! asked.
#![tactic(auto, using(mcs_sets::proofs::SetLemmas::sets_fit))]

mod context_set;
mod fewest;
mod laws;
mod near;
mod order;
mod plan;
mod question;
mod reach;
mod share;
mod states;

pub use laws::{
    import_order_exists, import_order_is_one, question_counts_are_one, questions_are_bounded,
};
pub use plan::Plan;
pub use question::{asked, questions};
pub use states::{guessed_states, supplied_states};
