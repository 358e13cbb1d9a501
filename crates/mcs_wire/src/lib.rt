//! Wires: several threads send letters to one inbox, each by an address of its own. Nothing is lost
//! and nothing is handed out twice.
#![tactic(auto)]

mod address;
mod ends;
mod inbox;
mod laws;
mod settled;
mod view;
mod wired;

pub use address::Address;
pub use ends::{Ends, wire};
pub use inbox::Inbox;
pub use laws::{
    joins_keep_the_rule, looks_keep_the_rule, names_keep_the_rule, parts_fit_a_word,
    sends_keep_the_rule, splits_keep_the_rule, takes_keep_the_rule, whole_ends_know_all_letters,
    wires_begin_with_the_rule,
};
pub use settled::{Settled, settle};
