//! Multi-context systems as data, with the definitions of their semantics.
#![tactic(auto)]

mod again;
mod atomic;
mod atoms;
mod bridge;
mod build;
mod copied;
mod denials;
mod facts;
mod fault;
mod faults;
mod formula;
mod knowledge;
mod known;
mod limit;
mod name;
mod names;
mod parts;
mod same;
mod sizes;
mod system;
mod truth;
mod variables;

pub use atomic::names_of;
pub use bridge::{Bridge, Read};
pub use denials::denied;
pub use facts::{with_facts, with_heads};
pub use fault::BuildFault;
pub use formula::Formula;
pub use knowledge::{Context, Default, Kb, ProgRule, TheoryItem};
pub use limit::Limit;
pub use name::Name;
pub use same::{same_formula, same_read};
pub use system::System;
pub use truth::{all_hold_at, holds_at};
