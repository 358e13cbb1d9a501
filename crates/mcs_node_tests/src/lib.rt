//! Tests of nodes and of rounds: letters between two contexts, replays of events, rings of
//! contexts, rounds that halt.
#![tactic(auto)]

mod halting;
#[cfg(test)]
mod halts;
#[cfg(test)]
mod meshes;
#[cfg(test)]
mod nodes;
#[cfg(test)]
mod orders;
#[cfg(test)]
mod replays;
#[cfg(test)]
mod rings;
#[cfg(test)]
mod turns;
