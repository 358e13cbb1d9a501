//! The extensions of default theories (Reiter 1980), seen through beliefs, and what shows that they
//! are all.
#![tactic(auto)]

mod asking;
mod base;
mod findings;
mod inside;
mod kept;
mod known;
mod listing;
mod models;
mod nodes;
mod outside;
mod questions;
mod said;
mod search;
mod searching;
mod theory;
mod verdict;

pub use base::TheoryBase;
pub use listing::{extensions, extensions_from};
