//! The grammar of system texts as a table of productions: over which terminals it is, what each
//! token is there for, and what is whole after it.
#![tactic(auto)]

mod class;
mod parts;
mod production;
mod rules;
mod terminal;

pub use class::Class;
pub use parts::productions;
pub use production::{Action, Production};
pub use terminal::Terminal;
