//! Grammars as data, and what holds of the texts of each grammar that is read by one token at a
//! time.
#![tactic(auto)]

mod front;
mod laws;
mod part;
mod reader;
mod step;

pub use laws::{
    firsts_are_exact, operands_are_there, reads_are_joined, texts_are_read_in_one_way,
    worked_grammars,
};
pub use part::{Event, Part, Rules};
pub use reader::Reader;
