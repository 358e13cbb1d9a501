//! The grammar of system texts: the tokens of a text, the system that it denotes, and its faults.
#![tactic(auto)]

mod laws;

pub use laws::{
    spelled_defaults_are_short, spelled_texts_have_no_fault, spelled_weights_are_in_range,
    texts_have_one_fault, unversioned_rules_are_unmarked, worked_rules, worked_texts,
};
