//! The tokens of a system text: words, numbers, signs, and bytes with which none of these begins.
#![tactic(auto)]

mod kind;
pub mod laws;
mod scan;
mod sign;

pub use kind::{TokenKind, kind_of};
pub use mcs_base::Keyword;
pub use scan::{Span, next_token, token_list};
pub use sign::Sign;
