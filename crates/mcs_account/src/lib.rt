//! System texts over the events of the grammar's reader: what is written, what it says, and what
//! its tokens are there for.
#![tactic(auto)]

mod account;
mod items;
mod place;
mod reader;

pub use account::{Account, weight_of};
pub use place::{Beginning, Place, Role, Uses, is_name_word};
pub use reader::{Heard, NamedRead, Taken, TextReader};
