//! Tests of mcs_sets, mcs_base and mcs_ports, over the libraries alone.
#![tactic(auto)]

#[cfg(test)]
mod antichain;
#[cfg(test)]
mod file_shelf;
#[cfg(test)]
mod kinds_of_sets;
#[cfg(test)]
mod listed;
#[cfg(test)]
mod members;
#[cfg(test)]
mod memory;
#[cfg(test)]
mod memory_sink;
#[cfg(test)]
mod pair;
#[cfg(test)]
mod partial;
#[cfg(test)]
mod pattern;
#[cfg(test)]
mod small_set;
#[cfg(test)]
mod std_sink;
#[cfg(test)]
mod text;
#[cfg(test)]
mod whole;
#[cfg(test)]
mod words;
