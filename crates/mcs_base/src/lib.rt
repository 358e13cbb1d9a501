//! The base of the other crates: small sets of variables, rules and marks, the orders in which they
//! are listed, and what a listing is.
#![tactic(auto, using(mcs_sets::proofs::SetLemmas::sets_fit))]

mod antichain;
mod digits;
mod keyword;
mod kind;
mod kinds;
mod least;
mod listed;
mod memory;
mod pair;
mod partial;
mod rows;
mod set;
mod text;
mod words;

pub use antichain::Antichain;
pub use digits::number;
pub use keyword::Keyword;
pub use kind::Kind;
pub use kinds::{Active, Mark, Marks, Rule, Variable, Vars, pair_before, state_before};
pub use least::lesser;
pub use listed::{list_pairs, list_rule_sets, list_states};
pub use mcs_sets::Members;
pub use memory::Memory;
pub use pair::Pair;
pub use partial::Partial;
pub use rows::Rows;
pub use set::Set;
pub use text::Text;
pub use words::{MOST_NAME_BYTES, is_letter, is_name, is_reserved, is_word, is_word_byte};
