//! Tests of mcs_draw, over the library alone.
#![tactic(auto)]

#[cfg(test)]
mod seats;
#[cfg(test)]
mod threads;
