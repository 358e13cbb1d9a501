//! The checker of certificates: whether a certificate shows what a context accepts, decided without
//! a search.
#![tactic(auto)]

mod acceptance;
mod question;

pub use acceptance::{accepts, are_parts};
pub use mcs_asking::AnswerCert;
pub use question::Question;
