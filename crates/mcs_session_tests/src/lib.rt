//! Tests of mcs_session, over the libraries alone.
#![tactic(auto)]

#[cfg(test)]
mod sessions;
