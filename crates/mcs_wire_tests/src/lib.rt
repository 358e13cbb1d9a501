//! Tests of mcs_wire: wires in one thread and in several.
#![tactic(auto)]

#[cfg(test)]
mod letters;
#[cfg(test)]
mod threads;
#[cfg(test)]
mod wires;
