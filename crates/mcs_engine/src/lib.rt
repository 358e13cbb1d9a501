//! What a search is made of: the clauses and what each watches, the literals that are true, unit
//! propagation, and what is learnt from a conflict.
#![tactic(auto)]

mod analysis;
mod blocks;
mod chains;
mod examine;
mod filling;
mod latest;
mod lists;
mod marks;
mod pairs;
mod propagate;
mod shorten;
mod state;
mod trail;
mod watches;

pub use analysis::analyse;
pub use blocks::Blocks;
pub use chains::Chains;
pub use filling::{fill, is_marked, mark};
pub use latest::{Latest, latest_of};
pub use lists::Lists;
pub use pairs::Pairs;
pub use propagate::{open_literal, settle, settle_from, visit_from};
pub use state::{Kept, NOTHING, Reach, State, Turn, back, decide, learn, turn_of};
pub use trail::{Entry, Trail};
pub use watches::{Pair, Watches};
