//! Tests of mcs_words and mcs_top, over the libraries alone: words that ask for a job, and runs
//! over devices in memory, from the text of a system to its listing, also over devices that break,
//! texts that are cut, and reports that are changed.
#![tactic(auto)]

#[cfg(test)]
mod bounds;
#[cfg(test)]
mod budgets;
#[cfg(test)]
mod cheapest;
#[cfg(test)]
mod crowd;
#[cfg(test)]
mod cuts;
#[cfg(test)]
mod devices;
#[cfg(test)]
mod equilibria;
#[cfg(test)]
mod gates;
#[cfg(test)]
mod grounded;
#[cfg(test)]
mod kinds;
#[cfg(test)]
mod lengths;
#[cfg(test)]
mod made;
#[cfg(test)]
mod makes;
#[cfg(test)]
mod programs;
#[cfg(test)]
mod refusals;
#[cfg(test)]
mod reports;
#[cfg(test)]
mod runs;
#[cfg(test)]
mod sessions;
#[cfg(test)]
mod solutions;
#[cfg(test)]
mod statuses;
#[cfg(test)]
mod tables;
#[cfg(test)]
mod usage;
#[cfg(test)]
mod wards;
#[cfg(test)]
mod words;
#[cfg(test)]
mod workers;
