//! Tables of partial states with the marks that they take: joining them, finding what fits, and
//! forgetting variables.
#![tactic(auto)]

mod fitting;
mod forgetting;
mod joining;
mod known;
mod laws;
mod minimal;
mod partners;
mod row;
mod semi_joining;
mod table;

pub use fitting::{matching, projections_of, states_with};
pub use forgetting::forget;
pub use joining::{are_apart, join, union_states, unions};
pub use known::holds_one;
pub use laws::{
    elimination_gives_minimal_rows, fitting_tables_are_minimal, forgetting_commutes,
    forgetting_is_a_restriction, joins_are_minimal_unions,
};
pub use minimal::minimal_table;
pub use row::Row;
pub use semi_joining::semi_join;
pub use table::Table;
