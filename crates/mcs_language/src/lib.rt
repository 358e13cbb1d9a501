//! The language of system texts: how they are read, and the canonical text of a system.
#![tactic(auto)]

mod laws;
mod reading;
mod rule;
mod rules;
mod writing;

pub use laws::texts_are_unambiguous;
pub use mcs_faults::TextFault;
pub use mcs_grammar::{
    spelled_defaults_are_short, spelled_texts_have_no_fault, spelled_weights_are_in_range,
    texts_have_one_fault, unversioned_rules_are_unmarked, worked_texts,
};
pub use reading::read_system;
pub use rule::read_bridge;
pub use rules::{ReadRule, RuleReader};
pub use writing::write_system;
